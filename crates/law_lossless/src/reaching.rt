//! Round trips among other turns, over a way that loses nothing.
ghost use Rattle.std.specs.Prelude.{◌≡◌, true, List, [], ◌∷◌, ◌++◌};
ghost use Rattle.std.specs.List.{AllByRecursion};
ghost use Rattle.book_base.specs.declared.end.End.{End};
ghost use Rattle.book_base.specs.declared.end.End.TheVariants.{A, B};
ghost use Rattle.book_link.specs.declared.event.Event.{Event};
ghost use Rattle.book_link.specs.declared.event.Event.TheVariants.{At};
ghost use Rattle.book_link.specs.declared.event.Action.TheVariants.{Give};
ghost use Rattle.book_link.specs.Runs.{run};
ghost use Rattle.book_link.specs.Storm.{storm_setup, storm_starts};
ghost use Rattle.book_link.specs.Worlds.{Setup};
ghost use Rattle.law_link.specs.Headline.{GivesFew};
ghost use Rattle.law_link.specs.Laws.{SetupFits, TablesFit, EventFits};
ghost use Rattle.law_progress.specs.Progress.{Sends, Resends, is_open, round_trip, IsUp, IsWaiting};
ghost use Rattle.law_lossless.specs.Reaching.{Speaks, Takes, HasTurns, NeverStuckAmong, CatchesUpAmong};

/// Where the link is up, the handshake is over at both ends, and each session was given fewer than
/// 2^31 bytes, both sessions last through whatever is served, and the oldest unacknowledged number
/// of each end moves by one at least for each round trip of that end, until all that is to be sent
/// there is acknowledged. Round trips may stand in any order, with any turns of both ends and any
/// takes between them. Within a round trip of an end that end may send and resend besides, and both
/// users may take; the other end says nothing but its own turns. No clock changes. It holds after
/// every list of events: whatever was lost, repeated, reordered, altered or injected before.
pub fn never_stuck_among()
    ensures { (setup : Setup) (events : List Event) → SetupFits setup → TablesFit setup
        → AllByRecursion EventFits events → GivesFew (run setup events)
        → NeverStuckAmong setup (run setup events) }
{}

/// Where the link is up, the handshake is over at both ends, and each session was given fewer than
/// 2^31 bytes, after as many such round trips of each end as numbers wait there, whatever else is
/// served, and a take at both, all bytes that were given to both ends are acknowledged, and so is
/// the FIN of each that was closed; the bytes are taken at the partner, and the end of a closed
/// stream is reached there.
pub fn catches_up_among()
    ensures { (setup : Setup) (events : List Event) → SetupFits setup → TablesFit setup
        → AllByRecursion EventFits events → GivesFew (run setup events)
        → CatchesUpAmong setup (run setup events) }
{}

/// The premises are met: the link of a storm begins up, with the handshake over at both ends, and
/// a byte that is given waits; four turns among others are a round trip.
pub fn reaching_is_met()
    ensures { (up : IsUp storm_setup (run storm_setup (storm_starts ++ At A (Give (1 ∷ [])) ∷ [])) 0 0)
        × ((e : End) → is_open (up.session e).state.phase ≡ true)
        × IsWaiting (up.session A).state
        × HasTurns A (round_trip A) (Speaks (Resends B) ∷ Takes A ∷ Speaks (Resends A)
        ∷ Speaks (Resends A) ∷ Takes B ∷ Speaks (Sends A) ∷ Speaks (Sends A) ∷ Speaks (Sends B) ∷ []) }
{}
