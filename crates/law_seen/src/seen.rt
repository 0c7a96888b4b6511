//! What holds of what is seen of every run.
ghost use Rattle.std.specs.Prelude.{List};
ghost use Rattle.std.specs.List.{AllByRecursion};
ghost use Rattle.book_link.specs.Worlds.{Setup};
ghost use Rattle.book_link.specs.declared.event.Event.{Event};
ghost use Rattle.law_link.specs.Laws.{SetupFits, EventFits};
ghost use Rattle.law_seen.specs.Seen.{AcknowledgesReceived, ReliableUnlessForged};
ghost use Rattle.law_seen.specs.Summaries.{SummarySaysSeen};

/// Where the last line of a report says `forgeries 0`, what a session got is a prefix of what its
/// peer gave, a session that is nobody's peer got nothing, and the end of the stream is told only
/// where the peer closed, and all that it gave was got. It holds for every setup and every list of
/// events, whatever is delivered, lost, repeated, reordered, altered or injected.
pub fn is_reliable()
    ensures { (setup : Setup) (events : List Event) → SetupFits setup → AllByRecursion EventFits events
        → ReliableUnlessForged setup events }
{}

/// What the newest session of an end acknowledges in a segment that it sends was received: its user
/// got it, or its next take gives it.
pub fn acknowledges_received()
    ensures { (setup : Setup) (events : List Event) → SetupFits setup → AllByRecursion EventFits events
        → AcknowledgesReceived setup events }
{}

/// What is seen of each session is what its summary line counts, and what the model says that it was
/// given and gave out.
pub fn what_is_seen()
    ensures { (setup : Setup) (events : List Event) → SetupFits setup → AllByRecursion EventFits events
        → SummarySaysSeen setup events }
{}
