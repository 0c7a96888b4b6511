//! What an arrival leaves of an end.
ghost use Rattle.std.specs.Prelude.{◌≡◌, ℕ, false, List};
ghost use Rattle.book_base.specs.declared.address.Pair.{Pair};
ghost use Rattle.book_segments.specs.Segments.{Reading};
ghost use Rattle.book_keys.specs.Rows.{Row};
ghost use Rattle.book_endpoint.specs.States.{EndState};
ghost use Rattle.book_endpoint.specs.Arrivals.{arrive};
ghost use Rattle.endpoint_steps.specs.Moving.{moves};

/// An arrival that isn't taken, is no reset, and brings not too many runs leaves an end as it was, but
/// for its current key, and whether an ACK is owed: no byte, acknowledgement or window of it is taken,
/// and no phase changes (RFC 9293, section 3.10.7, in a profile).
pub fn only_what_is_taken_moves()
    ensures { (rows : List Row) (pair : Pair) (now : ℕ) (s : EndState) (r : Reading)
        → moves (arrive rows pair now s r).answer ≡ false
        → (arrive rows pair now s r).state
        ≡ record s {
          current = (arrive rows pair now s r).state.current;
          ack_owed = (arrive rows pair now s r).state.ack_owed;
        } }
{}
