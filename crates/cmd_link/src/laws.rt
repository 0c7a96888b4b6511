//! What holds of the messages of every run.
ghost use Rattle.std.specs.Prelude.{List};
ghost use Rattle.std.specs.List.{AllByRecursion};
ghost use Rattle.book_link.specs.declared.event.Event.{Event};
ghost use Rattle.law_link.specs.Laws.{SetupFits, EventFits};
ghost use Rattle.book_link.specs.Runs.{run};
ghost use Rattle.book_link.specs.Worlds.{Setup};
ghost use Rattle.cmd_link.specs.Tellings.{SpeaksInOrder, TellsMessages};

/// The text of a run tells of each session the messages of the bytes that it delivered, in whatever
/// pieces they were taken, and behind them the one fault that ends them, with its kind and its place,
/// where there is one; no other line is of a fault. Where the run counts no forgery, the messages
/// begin those of the bytes that were given to the session's partner. It holds for every setup and
/// every list of events (RFC 4271, sections 4 and 6.1).
pub fn messages_come_in_order()
    ensures told { (setup : Setup) (events : List Event) → TellsMessages setup events }
    ensures begins { (setup : Setup) (events : List Event) → SetupFits setup → AllByRecursion EventFits events
        → SpeaksInOrder (run setup events) }
{}
