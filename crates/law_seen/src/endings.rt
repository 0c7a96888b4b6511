//! How the sessions of every run end.
ghost use Rattle.std.specs.Prelude.{List};
ghost use Rattle.std.specs.List.{AllByRecursion};
ghost use Rattle.book_link.specs.Runs.{run};
ghost use Rattle.book_link.specs.Worlds.{Setup};
ghost use Rattle.book_link.specs.declared.event.Event.{Event};
ghost use Rattle.law_link.specs.Laws.{SetupFits, EventFits};
ghost use Rattle.law_seen.specs.Endings.{EndsOnlySo};

/// The newest session of an end stays its newest until another one is opened there, and comes to
/// CLOSED only where its user aborts it, where its user closes it before it has a peer, where a
/// segment resets it, or where its user had closed it. Where no forgery is counted, a reset comes
/// only after the partner's abort, and the last only after the partner was closed too.
pub fn ends_only_so()
    ensures { (setup : Setup) (events : List Event) (event : Event) → SetupFits setup → AllByRecursion EventFits events
        → EventFits event → EndsOnlySo setup (run setup events) event }
{}
