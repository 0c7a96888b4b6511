//! What holds of every run of the tables of two ends: no gap, rollover, origin and reset.
ghost use Rattle.std.specs.Prelude.{◌≢◌, ℕ, List};
ghost use Rattle.std.specs.List.{AllByRecursion};
ghost use Rattle.book_base.specs.declared.end.End.{End};
ghost use Rattle.book_link.specs.declared.event.Event.{Event};
ghost use Rattle.book_link.specs.declared.event.Event.TheVariants.{At};
ghost use Rattle.book_link.specs.declared.event.Action.TheVariants.{Send, Resend, Deliver};
ghost use Rattle.book_link.specs.Outcomes.{WithoutKey};
ghost use Rattle.law_link.specs.Laws.{SetupFits, TablesFit, EventFits, IsCovered, RollsOver, IsAdmitted, HasOrigin};
ghost use Rattle.law_link.specs.Laws.{ResetsByAbort};
ghost use Rattle.book_link.specs.Runs.{run};
ghost use Rattle.book_link.specs.Steps.{step};
ghost use Rattle.book_link.specs.Worlds.{Setup, Made};

/// Where an end's table, as it is at a send or a resend, has no gap over a range that the end's
/// reading lies in, the outcome isn't that there is no key. It holds for every setup and every list
/// of events.
pub fn never_keyless()
    ensures send { (setup : Setup) (events : List Event) (e : End) → IsCovered setup (run setup events) e
        → (step setup (run setup events) (At e Send)).outcome ≢ WithoutKey }
    ensures resend { (setup : Setup) (events : List Event) (e : End) → IsCovered setup (run setup events) e
        → (step setup (run setup events) (At e Resend)).outcome ≢ WithoutKey }
{}

/// A segment that is delivered as it was made, to the live session that it is addressed to, within
/// the lead and the lag for which the maker's table then is aligned with the receiver's now, and
/// near the number expected, passes the check. The order of the clock readings, repeats, and the
/// additions and withdrawals in between don't matter. The premises say what the types of a setup
/// and of events say, and that the first tables are valid.
pub fn rolls_over()
    ensures { (setup : Setup) (events : List Event) (e : End) (name : ℕ) (m : Made) → SetupFits setup → TablesFit setup
        → AllByRecursion EventFits events → RollsOver setup (run setup events) e name m
        → IsAdmitted (step setup (run setup events) (At e (Deliver name))).outcome }
{}

/// Where a run counts no forgery, an arrival without SYN that passes at a session has the number,
/// flags, acknowledgement, window, key ids and payload of a segment that the session's partner had
/// made before.
pub fn has_origin()
    ensures { (setup : Setup) (events : List Event) (event : Event) → SetupFits setup → AllByRecursion EventFits events
        → EventFits event → HasOrigin setup (run setup events) event }
{}

/// Where a run counts no forgery, an arrival resets a session only where abort had been called on
/// the session's partner before.
pub fn resets_by_abort()
    ensures { (setup : Setup) (events : List Event) (event : Event) → SetupFits setup → AllByRecursion EventFits events
        → EventFits event → ResetsByAbort setup (run setup events) event }
{}
