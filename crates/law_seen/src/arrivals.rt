//! The arrivals of every run.
ghost use Rattle.std.specs.Prelude.{List};
ghost use Rattle.std.specs.List.{AllByRecursion};
ghost use Rattle.book_link.specs.declared.event.Event.{Event};
ghost use Rattle.book_link.specs.Runs.{run};
ghost use Rattle.book_link.specs.Worlds.{Setup};
ghost use Rattle.law_seen.specs.Apart.{EachHasOrigin, EachResetIsAnAbort};
ghost use Rattle.law_link.specs.Laws.{SetupFits, EventFits};

/// An arrival that is no forgery, passes, and has no SYN says what the session's partner had said before.
pub fn each_has_origin()
    ensures { (setup : Setup) (events : List Event) (event : Event) → SetupFits setup → AllByRecursion EventFits events
        → EventFits event → EachHasOrigin setup (run setup events) event }
{}

/// A reset by an arrival that is no forgery comes only of a partner that had abort called.
pub fn each_reset_is_an_abort()
    ensures { (setup : Setup) (events : List Event) (event : Event) → SetupFits setup → AllByRecursion EventFits events
        → EventFits event → EachResetIsAnAbort setup (run setup events) event }
{}
