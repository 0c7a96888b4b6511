//! What holds of the streams of every run: prefix, end of stream, acknowledgement.
ghost use Rattle.std.specs.Prelude.{◌≡◌, ◌≤◌, ℕ, Bool, List, length};
ghost use Rattle.std.specs.List.{AllByRecursion};
ghost use Rattle.book_base.specs.declared.end.End.{End};
ghost use Rattle.book_link.specs.declared.event.Event.{Event};
ghost use Rattle.book_link.specs.declared.event.Event.TheVariants.{At};
ghost use Rattle.book_link.specs.declared.event.Action.TheVariants.{Take};
ghost use Rattle.law_link.specs.Headline.{DeliversInOrder, EndsWhole, ShowsEnds, TookFrom, GivesFew, few_events};
ghost use Rattle.law_link.specs.Headline.{Acknowledges, AcknowledgedWasReceived, OnePartner, PartnerIsOne};
ghost use Rattle.law_link.specs.Laws.{SetupFits, EventFits};
ghost use Rattle.law_link.specs.Sessions.{ReceivesGiven};
ghost use Rattle.book_link.specs.Outcomes.{Took};
ghost use Rattle.book_link.specs.Runs.{run};
ghost use Rattle.book_link.specs.Steps.{step};
ghost use Rattle.book_link.specs.Worlds.{Setup, World, side, live};

/// Where a run counts no forgery, the bytes that each session took, and then those that are ready
/// there, begin the bytes that were given to its partner; a session without a partner has neither.
/// It holds for every setup and every list of events, whatever is delivered, lost, repeated,
/// reordered, altered or injected, and whatever rows are added and withdrawn.
pub fn delivers_in_order()
    ensures { (setup : Setup) (events : List Event) → SetupFits setup → AllByRecursion EventFits events
        → DeliversInOrder (run setup events) }
{}

/// Where a run counts no forgery, each byte that a session received, in order or not, is the one that
/// its partner was given at that number, and a FIN that it recorded is its partner's; a session
/// without a partner received nothing.
pub fn receives_given()
    ensures { (setup : Setup) (events : List Event) → SetupFits setup → AllByRecursion EventFits events
        → ReceivesGiven (run setup events) }
{}

/// Where a run counts no forgery, a session is at the end of its stream only where close was called
/// on its partner and the bytes that it took are all that were given there; a take shows the end,
/// and gives the bytes that it takes, only so.
pub fn ends_whole()
    ensures reached { (setup : Setup) (events : List Event) → SetupFits setup → AllByRecursion EventFits events
        → EndsWhole (run setup events) }
    ensures shown { (setup : Setup) (events : List Event) → SetupFits setup → AllByRecursion EventFits events
        → ShowsEnds (run setup events) }
    ensures told { (setup : Setup) (w : World) (e : End) (count : ℕ) (bytes : List ℕ) (shown : Bool)
        → (step setup w (At e (Take count))).outcome ≡ Took bytes shown
        → TookFrom (live (side w e).sessions) (live (side (step setup w (At e (Take count))).world e).sessions) bytes
        shown }
{}

/// Where a run counts no forgery and each session was given fewer than 2^31 bytes, each given byte
/// of a session below its oldest unacknowledged number is below the number that its partner expects.
pub fn acknowledges()
    ensures kept { (setup : Setup) (events : List Event) → SetupFits setup → AllByRecursion EventFits events
        → Acknowledges (run setup events) }
    ensures received { (setup : Setup) (events : List Event) → SetupFits setup → AllByRecursion EventFits events
        → AcknowledgedWasReceived (run setup events) }
{}

/// After few events each session was given fewer than 2^31 bytes, whatever the setup and the events:
/// each event gives a session 65,535 bytes at most.
pub fn gives_few()
    ensures { (setup : Setup) (events : List Event) → length events ≤ few_events → GivesFew (run setup events) }
{}

/// A session has at most one partner: the other end's session that knows its initial sequence
/// number as its peer's, and whose initial sequence number it knows.
pub fn one_partner()
    ensures found { (w : World) → PartnerIsOne w }
    ensures only { (setup : Setup) (events : List Event) → SetupFits setup → AllByRecursion EventFits events
        → OnePartner (run setup events) }
{}
