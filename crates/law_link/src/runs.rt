//! What holds of what was made, and of a run with more events.
ghost use Rattle.std.specs.Prelude.{◌≡◌, ◌↔◌, ℕ, suc, List, [], ◌∷◌, ◌++◌, length, Some, None};
ghost use Rattle.std.specs.List.{AllByRecursion};
ghost use Rattle.book_base.specs.declared.end.End.{End};
ghost use Rattle.book_endpoint.specs.Emissions.{Quiet, due_next, due_again, emit, resend};
ghost use Rattle.book_link.specs.declared.event.Event.{Event};
ghost use Rattle.law_link.specs.Entries.{AsMade, AllMade, Carried};
ghost use Rattle.law_link.specs.Laws.{SetupFits, EventFits};
ghost use Rattle.law_link.specs.Sessions.{OnlyGrow};
ghost use Rattle.book_link.specs.Reports.{outcome_line, lines_from, summary, report};
ghost use Rattle.book_link.specs.Runs.{empty, run, outcomes_from};
ghost use Rattle.book_link.specs.Steps.{step};
ghost use Rattle.book_link.specs.Worlds.{Setup, Session, Happening, pair_of, side, live};

/// Each segment that an end made is in the written form, made from a row of its table then that was
/// sendable at its reading; its MAC is that of the row's algorithm, key and flag under the session's
/// context; it carries, at its number, the bytes that were given to its session at that place; a FIN
/// was made after close, behind all bytes, and a RST after abort; what it acknowledges is at most
/// what its session expects.
pub fn what_was_made()
    ensures { (setup : Setup) (events : List Event) → SetupFits setup → AllByRecursion EventFits events
        → AllMade (AsMade setup (run setup events)) (run setup events).history }
{}

/// Each segment that an end made carries, at its number, the bytes that were given to its session
/// at that place, and its datagram is the spelling of that segment.
pub fn carries_given()
    ensures { (setup : Setup) (events : List Event) → SetupFits setup → AllByRecursion EventFits events
        → AllMade (Carried (run setup events)) (run setup events).history }
{}

/// From step to step, and so from any moment to any later one, each session of each end is still
/// there, with its two initial sequence numbers; the bytes that it was given begin those that it is
/// given later, and the number that it expects doesn't go down.
pub fn sessions_only_grow()
    ensures step { (setup : Setup) (events : List Event) (event : Event) → SetupFits setup
        → AllByRecursion EventFits events → EventFits event
        → OnlyGrow (run setup events) (step setup (run setup events) event).world }
    ensures run { (setup : Setup) (events more : List Event) → SetupFits setup → AllByRecursion EventFits events
        → AllByRecursion EventFits more
        → OnlyGrow (run setup events) (run setup (events ++ more)) }
{}

/// What was made and what came stays as it was: more events only add to the history.
pub fn nothing_is_unmade()
    ensures { (setup : Setup) (events more : List Event) → (front : List Happening)
        × ((run setup (events ++ more)).history ≡ front ++ (run setup events).history) }
{}

/// A run with one more event is the run before it and then one step: its world, its outcomes, and
/// its report, which is the lines of the outcomes before, the line of the step's outcome, and the
/// summary of the new world.
pub fn runs_go_on()
    ensures world { (setup : Setup) (events : List Event) (e : Event)
        → run setup (events ++ e ∷ []) ≡ (step setup (run setup events) e).world }
    ensures outcomes { (setup : Setup) (events : List Event) (e : Event)
        → outcomes_from setup (empty setup) (events ++ e ∷ [])
        ≡ outcomes_from setup (empty setup) events ++ (step setup (run setup events) e).outcome ∷ [] }
    ensures report { (setup : Setup) (events : List Event) (e : Event)
        → report setup (events ++ e ∷ []) ≡ (lines_from 1 (outcomes_from setup (empty setup) events)
        ++ outcome_line (suc (length events)) (step setup (run setup events) e).outcome)
        ++ summary (step setup (run setup events) e).world }
{}

/// The live session of an end makes nothing for want of anything to send, and not for want of a
/// context: exactly where nothing is due to be sent, or to be sent again, whatever the row.
pub fn idle_exactly()
    ensures send { (setup : Setup) (events : List Event) (e : End) (s : Session) → SetupFits setup
        → AllByRecursion EventFits events → live (side (run setup events) e).sessions ≡ Some s
        → (emit (side (run setup events) e).rows (pair_of setup e) (side (run setup events) e).clock s.state ≡ Quiet)
        ↔ (due_next s.state ≡ None) }
    ensures resend { (setup : Setup) (events : List Event) (e : End) (s : Session) → SetupFits setup
        → AllByRecursion EventFits events → live (side (run setup events) e).sessions ≡ Some s
        → (resend (side (run setup events) e).rows (pair_of setup e) (side (run setup events) e).clock s.state ≡ Quiet)
        ↔ (due_again s.state ≡ None) }
{}
