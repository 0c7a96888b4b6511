//! What the definitions say of single steps, as clauses of functions that do nothing.
ghost use Rattle.std.specs.Prelude.{◌≡◌, ◌↔◌, ◌⊎◌, ℕ, ◌+◌, ◌-◌, ◌<◌, Bool, true, false, List, length, Option, Some};
ghost use Rattle.std.specs.Prelude.{Ok, Err};
ghost use Rattle.book_base.specs.declared.address.Pair.{Pair};
ghost use Rattle.book_segments.specs.Received.{runs};
ghost use Rattle.book_segments.specs.Segments.{Segment, Read, has, RST};
ghost use Rattle.book_keys.specs.Rows.{Row};
ghost use Rattle.book_endpoint.specs.declared.phase.Phase.TheVariants.{SynReceived, CloseWait, Closed};
ghost use Rattle.book_endpoint.specs.declared.refusal.Refusal.{Refusal};
ghost use Rattle.book_endpoint.specs.Verdicts.{Finding, Known, judge};
ghost use Rattle.book_endpoint.specs.Passing.{Passes};
ghost use Rattle.book_endpoint.specs.States.{EndState, abort, hears, window};
ghost use Rattle.book_endpoint.specs.Arrivals.{arrive, judged_by};
ghost use Rattle.book_endpoint.specs.Hearing.{acked, records_fin, windowed};

/// A segment passes exactly where each condition of the check holds: one TCP-AO option and no TCP MD5
/// option, an acceptable row under its KeyID, a MAC of that row's length, a known context, a number in
/// range, and the right MAC (RFC 5925, section 7.5).
pub fn passes_exactly()
    ensures { (rows : List Row) (pair : Pair) (known : Known) (now : ℕ) (d : Segment) (p : Finding)
        → (judge rows pair known now d ≡ Ok p) ↔ Passes rows pair known now d p }
{}

/// A segment that the check refuses changes nothing: its RNextKeyID isn't heard, and no byte,
/// acknowledgement or window of it is taken (RFC 5925, section 7.5).
pub fn refused_changes_nothing()
    ensures { (rows : List Row) (pair : Pair) (now : ℕ) (s : EndState) (d : Segment) (why : Refusal)
        → judged_by rows pair now s d ≡ Err why
        → (arrive rows pair now s (Read d)).state ≡ s }
{}

/// A segment that acknowledges less than was acknowledged tells no window, and acknowledges nothing
/// (RFC 9293, section 3.10.7.4).
pub fn old_acknowledgement_tells_nothing()
    ensures window { (s : EndState) (una n a : ℕ) (d : Segment) → a < una → windowed s una d n (Some a) ≡ s }
    ensures una { (s : EndState) (a : ℕ) → a < s.una → acked s (Some a) ≡ s }
{}

/// A FIN is recorded only where no kept byte stands at its number or past it.
pub fn fin_is_past_all_kept_bytes()
    ensures { (s : EndState) (kept : ℕ → Option ℕ) (d : Segment) (f : ℕ) → records_fin s kept d f ≡ true
        → runs kept false f (s.expected + window s - f) ≡ 0 }
{}

/// A RST resets at the number expected alone (RFC 5961, section 3.2): an end that it leaves closed was
/// closed, or the RST passed and has the number expected.
pub fn reset_is_at_the_expected_number()
    ensures { (rows : List Row) (pair : Pair) (now : ℕ) (s : EndState) (d : Segment) → has RST d ≡ true
        → (arrive rows pair now s (Read d)).state.phase ≡ Closed
        → ((p : Finding) × ((arrive rows pair now s (Read d)).passed ≡ Some p) × (p.number ≡ s.expected))
        ⊎ (s.phase ≡ Closed) }
{}

/// The RNextKeyID of a RST isn't heard: the current key stays (RFC 5925, section 7.5; of a RST: own).
pub fn reset_hears_no_key()
    ensures { (rows : List Row) (pair : Pair) (now : ℕ) (s : EndState) (d : Segment) → has RST d ≡ true
        → (arrive rows pair now s (Read d)).state.current ≡ s.current }
{}

/// An abort closes; it makes a RST owed only where the peer may know of the end (RFC 9293, section
/// 3.10.5).
pub fn abort_closes()
    ensures closed { (s : EndState) → (abort s).phase ≡ Closed }
    ensures owes { (s : EndState) → s.rst_owed ≡ false → (abort s).rst_owed ≡ true
        → (hears s.phase ≡ true) ⊎ (s.phase ≡ SynReceived) ⊎ (s.phase ≡ CloseWait) }
{}
