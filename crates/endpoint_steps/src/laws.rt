//! The steps are what the definitions say, as clauses of functions that do nothing.
ghost use Rattle.std.specs.Prelude.{◌≡◌, ◌↔◌, ℕ, List, None};
ghost use Rattle.book_base.specs.declared.address.Pair.{Pair};
ghost use Rattle.book_segments.specs.Segments.{Reading};
ghost use Rattle.book_keys.specs.Rows.{Row};
ghost use Rattle.book_keys.specs.Coordination.{choose};
ghost use Rattle.book_endpoint.specs.States.{EndState};
ghost use Rattle.book_endpoint.specs.Arrivals.{arrive};
ghost use Rattle.book_endpoint.specs.Emissions.{due_next, due_again, emit, resend};
ghost use Rattle.endpoint_steps.specs.Arriving.{arrive_by_steps};
ghost use Rattle.endpoint_steps.specs.Drafting.{to_emit, to_resend, emitted};

/// An arrival is what its steps say: the state after it, the answer, and what passed the check (RFC
/// 9293, section 3.10.7, in a profile).
pub fn arrivals_by_steps()
    ensures { (rows : List Row) (pair : Pair) (now : ℕ) (s : EndState) (r : Reading)
        → arrive rows pair now s r ≡ arrive_by_steps rows pair now s r }
{}

/// What an end makes next, and again, is what is made of a draft that is chosen by the most bytes that
/// it may carry; there is one exactly where something is due.
pub fn emit_by_drafts()
    ensures next { (rows : List Row) (pair : Pair) (now : ℕ) (s : EndState)
        → emit rows pair now s ≡ emitted pair s (to_emit s) (choose s.current rows pair now) }
    ensures again { (rows : List Row) (pair : Pair) (now : ℕ) (s : EndState)
        → resend rows pair now s ≡ emitted pair s (to_resend s) (choose s.current rows pair now) }
    ensures none { (s : EndState) → (to_emit s 0 ≡ None) ↔ (due_next s ≡ None) }
    ensures none_again { (s : EndState) → (to_resend s 0 ≡ None) ↔ (due_again s ≡ None) }
{}
