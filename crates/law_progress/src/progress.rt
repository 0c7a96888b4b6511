//! Progress over a way that loses nothing. The tables with which the ends begin have no overlap; what
//! is asked of the tables as they are stands in `IsKeyed`.
ghost use Rattle.std.specs.Prelude.{List, [], ◌∷◌, ◌++◌};
ghost use Rattle.std.specs.List.{AllByRecursion};
ghost use Rattle.book_base.specs.declared.end.End.TheVariants.{A, B};
ghost use Rattle.book_link.specs.declared.event.Event.{Event};
ghost use Rattle.book_link.specs.declared.event.Event.TheVariants.{At};
ghost use Rattle.book_link.specs.declared.event.Action.TheVariants.{Connect, Listen, Give};
ghost use Rattle.book_link.specs.Runs.{run};
ghost use Rattle.book_link.specs.Storm.{storm_setup, storm_starts};
ghost use Rattle.book_link.specs.Worlds.{Setup};
ghost use Rattle.law_link.specs.Headline.{GivesFew};
ghost use Rattle.law_link.specs.Laws.{SetupFits, TablesFit, EventFits};
ghost use Rattle.law_progress.specs.Progress.{IsUp, IsWaiting, IsOpening};
ghost use Rattle.law_progress.specs.Progress.{NeverStuck, EachTripGains, CatchesUp, Connects};

/// Where the link is up, each session was given fewer than 2^31 bytes, and a byte that was given to
/// an end, or its FIN, or its SYN in SYN-RECEIVED, isn't acknowledged, one round trip of that end
/// moves its oldest unacknowledged number, and what is acknowledged is received at the partner. It
/// holds after every list of events: whatever was lost, repeated, reordered, altered or injected
/// before, however full the windows are, and whichever windows and runs are kept.
pub fn never_stuck()
    ensures { (setup : Setup) (events : List Event) → SetupFits setup → TablesFit setup
        → AllByRecursion EventFits events → GivesFew (run setup events)
        → NeverStuck setup (run setup events) }
{}

/// Where the link is up, and each session was given fewer than 2^31 bytes, each of so many round
/// trips of both ends moves the oldest unacknowledged number of each end, until all that is to be
/// sent there is acknowledged.
pub fn each_trip_gains()
    ensures { (setup : Setup) (events : List Event) → SetupFits setup → TablesFit setup
        → AllByRecursion EventFits events → GivesFew (run setup events)
        → EachTripGains setup (run setup events) }
{}

/// Where the link is up, and each session was given fewer than 2^31 bytes, after as many round
/// trips as numbers wait at either end, and a take at both, all bytes that were given to both ends
/// are acknowledged, and so is the FIN of each that was closed; the bytes are taken at the partner,
/// and the end of a closed stream is reached there.
pub fn catches_up()
    ensures { (setup : Setup) (events : List Event) → SetupFits setup → TablesFit setup
        → AllByRecursion EventFits events → GivesFew (run setup events)
        → CatchesUp setup (run setup events) }
{}

/// Where a connection is opening, a handshake over a way that loses nothing brings the live
/// sessions to ESTABLISHED as partners, and the link is up; they were given the same bytes as
/// before. A connection is opening where the live session of one end, the client, is in SYN-SENT,
/// that of the other end is in LISTEN, or in SYN-RECEIVED with the client's initial sequence
/// number, and keys, tables and clocks are as in a link that is up. It holds after every list of
/// events: whichever segments of the handshake were made, lost, repeated or reordered before.
pub fn connects()
    ensures { (setup : Setup) (events : List Event) → SetupFits setup → TablesFit setup
        → AllByRecursion EventFits events → Connects setup (run setup events) }
{}

/// The premises of the laws of a link that is up are met: both ends of the link of a storm begin
/// up, and a byte that is given waits.
pub fn is_met()
    ensures { (up : IsUp storm_setup (run storm_setup (storm_starts ++ At A (Give (1 ∷ [])) ∷ [])) 0 0)
        × IsWaiting (up.session A).state }
{}

/// The premises of a handshake are met: over the link of a storm one end connects and the other
/// listens.
pub fn begins_opening()
    ensures { IsOpening storm_setup
        (run storm_setup (At A (Connect 4294960000) ∷ At B (Listen 4000000000) ∷ [])) 0 0 A }
{}
