//! What holds of two stacks that talk over any path.
ghost use Rattle.std.specs.Prelude.{ℕ, List};
ghost use Rattle.std.specs.List.{AllByRecursion};
ghost use Rattle.book_base.specs.declared.end.End.{End};
ghost use Rattle.book_link.specs.Storm.{storm_setup};
ghost use Rattle.book_link.specs.Worlds.{Setup};
ghost use Rattle.book_stack.specs.Calls.{Incoming};
ghost use Rattle.law_link.specs.Laws.{SetupFits};
ghost use Rattle.law_ends.specs.Doings.{Doing, DoingFits};
ghost use Rattle.law_ends.specs.Users.{FreshIsns};
ghost use Rattle.law_ends.specs.Delivered.{Delivers};
ghost use Rattle.law_ends.specs.Ends.{LiveInOrder, HeldInOrder, ToldInOrder, HeldIsPartners, LiveEndsWhole};
ghost use Rattle.law_ends.specs.Ends.{HeldEndsWhole, ToldEndsWhole, HeldIsReceived, ResetByAbort};

/// Where no forgery is counted, what takes delivered in the session of an end that its stack holds, and
/// then what is ready there, begins what was given in the session of the other end whose initial
/// sequence number it knows as its peer's; without such a session there is neither. `live` says it in
/// the answers of calls; `held` says it of the state of the end and of its partner among the sessions
/// of the link. `told` says it of each session of each end, the removed ones among them: what takes
/// delivered is nothing, or begins what was given in a session of the other end.
pub fn bytes_come_in_order()
    ensures live { (setup : Setup) (most : End → ℕ) (doings : List Doing) → SetupFits setup
        → AllByRecursion DoingFits doings → FreshIsns setup most doings → LiveInOrder setup most doings }
    ensures held { (setup : Setup) (most : End → ℕ) (doings : List Doing) → SetupFits setup
        → AllByRecursion DoingFits doings → FreshIsns setup most doings → HeldInOrder setup most doings }
    ensures told { (setup : Setup) (most : End → ℕ) (doings : List Doing) → SetupFits setup
        → AllByRecursion DoingFits doings → FreshIsns setup most doings → ToldInOrder setup most doings }
{}

/// Where no forgery is counted, each byte that an end received, in order or not, is the one that its
/// partner was given at that number, and a FIN that it recorded is its partner's; an end without a
/// partner received nothing.
pub fn bytes_are_the_partners()
    ensures { (setup : Setup) (most : End → ℕ) (doings : List Doing) → SetupFits setup
        → AllByRecursion DoingFits doings → FreshIsns setup most doings → HeldIsPartners setup most doings }
{}

/// Where no forgery is counted, an end that is held is at the end of its stream only where close was
/// called at its partner and what takes delivered is all that was given there: `live` in the answers
/// of calls, `held` of the end and its partner among the sessions of the link. `told` says it of each
/// session of each end: a take told the end only where a session of the other end was closed, and what
/// takes delivered is all that was given in it.
pub fn streams_end_whole()
    ensures live { (setup : Setup) (most : End → ℕ) (doings : List Doing) → SetupFits setup
        → AllByRecursion DoingFits doings → FreshIsns setup most doings → LiveEndsWhole setup most doings }
    ensures held { (setup : Setup) (most : End → ℕ) (doings : List Doing) → SetupFits setup
        → AllByRecursion DoingFits doings → FreshIsns setup most doings → HeldEndsWhole setup most doings }
    ensures told { (setup : Setup) (most : End → ℕ) (doings : List Doing) → SetupFits setup
        → AllByRecursion DoingFits doings → FreshIsns setup most doings → ToldEndsWhole setup most doings }
{}

/// Where no forgery is counted and fewer than 2^31 bytes were given in each session, each given byte
/// of an end below its oldest unacknowledged number is below the number that its partner expects.
pub fn acknowledged_was_received()
    ensures { (setup : Setup) (most : End → ℕ) (doings : List Doing) → SetupFits setup
        → AllByRecursion DoingFits doings → FreshIsns setup most doings → HeldIsReceived setup most doings }
{}

/// Where no forgery is counted, a call that hears a datagram of the pair answers that it reset the
/// connection only where an end is held, and abort was called before in the session of the other end
/// whose initial sequence number that end knows as its peer's.
pub fn resets_come_of_aborts()
    ensures { (setup : Setup) (most : End → ℕ) (doings : List Doing) (e : End) (coming : Incoming) → SetupFits setup
        → AllByRecursion DoingFits doings → FreshIsns setup most doings
        → ResetByAbort setup most doings e coming }
{}

/// The premises are met, and the laws aren't empty: two stacks with one HMAC-SHA-1 key, of which one
/// opens and the other listens, hear in order all that the other hands out, a SYN, a SYN with ACK and a
/// byte; no forgery is counted; each holds an end that knows the other's number as its peer's; and the
/// byte that was given to one of them is delivered by a take at the other.
pub fn is_met()
    ensures { (doings : List Doing) × Delivers storm_setup (λ e. 1) doings }
{}
