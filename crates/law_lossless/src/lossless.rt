//! Ends in step over a way that loses nothing.
ghost use Rattle.std.specs.Prelude.{List, [], ◌∷◌, ◌++◌};
ghost use Rattle.std.specs.List.{AllByRecursion};
ghost use Rattle.book_base.specs.declared.end.End.TheVariants.{A, B};
ghost use Rattle.book_link.specs.declared.event.Event.{Event};
ghost use Rattle.book_link.specs.declared.event.Event.TheVariants.{At};
ghost use Rattle.book_link.specs.declared.event.Action.TheVariants.{Connect, Deliver, Give, Listen};
ghost use Rattle.book_link.specs.declared.event.Action.TheVariants.{Send};
ghost use Rattle.book_link.specs.Runs.{run};
ghost use Rattle.book_link.specs.Storm.{storm_setup, storm_starts};
ghost use Rattle.book_link.specs.Worlds.{Setup};
ghost use Rattle.law_link.specs.Headline.{GivesFew};
ghost use Rattle.law_link.specs.Laws.{SetupFits, TablesFit, EventFits};
ghost use Rattle.law_progress.specs.Progress.{IsUp, IsWaiting};
ghost use Rattle.law_lossless.specs.Lossless.{AreInStep, DeliverAll, KeepStep};

/// Where both ends are in step, they stay in step, whoever speaks and however often: each datagram
/// is heard as it comes, what it carries is received at once, and is acknowledged when the other
/// end speaks next. Nothing is ever sent again. It holds after every list of events: whatever was
/// lost, repeated, reordered, altered or injected before, as long as nothing is on the way now.
pub fn step_is_kept()
    ensures { (setup : Setup) (events : List Event) → SetupFits setup → TablesFit setup
        → AllByRecursion EventFits events → GivesFew (run setup events)
        → KeepStep setup (run setup events) }
{}

/// Where both ends are in step, and each session was given fewer than 2^31 bytes, after as many
/// rounds as numbers are unsent at either end, two more, and a take at both, all bytes that were
/// given to both ends are acknowledged, and so is the FIN of each that was closed; the bytes are
/// taken at the partner, and the end of a closed stream is reached there. In a round each end
/// speaks, once or as often as it likes. No end sends anything again.
pub fn all_is_delivered()
    ensures { (setup : Setup) (events : List Event) → SetupFits setup → TablesFit setup
        → AllByRecursion EventFits events → GivesFew (run setup events)
        → DeliverAll setup (run setup events) }
{}

/// The premises are met: both ends of the link of a storm begin in step, and a byte that is given
/// waits.
pub fn in_step_is_met()
    ensures { (up : IsUp storm_setup (run storm_setup (storm_starts ++ At A (Give (1 ∷ [])) ∷ [])) 0 0)
        × AreInStep storm_setup (run storm_setup (storm_starts ++ At A (Give (1 ∷ [])) ∷ [])) 0 0 up
        × IsWaiting (up.session A).state }
{}

/// A handshake of which nothing is lost leads in step: over the link of a storm one end connects, the
/// other listens, and each of the three segments comes as it is made.
pub fn a_handshake_leads_in_step()
    ensures { (up : IsUp storm_setup
        (run storm_setup (At A (Connect 4294960000) ∷ At B (Listen 4000000000) ∷ At A Send ∷ At B (Deliver 1)
        ∷ At B Send ∷ At A (Deliver 2) ∷ At A Send ∷ At B (Deliver 3) ∷ [])) 0 0)
        × AreInStep storm_setup
        (run storm_setup (At A (Connect 4294960000) ∷ At B (Listen 4000000000) ∷ At A Send ∷ At B (Deliver 1)
        ∷ At B Send ∷ At A (Deliver 2) ∷ At A Send ∷ At B (Deliver 3) ∷ [])) 0 0 up }
{}
