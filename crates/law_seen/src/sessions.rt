//! The streams of the sessions of every run.
ghost use Rattle.std.specs.Prelude.{◌≡◌, ℕ, List};
ghost use Rattle.std.specs.List.{AllByRecursion};
ghost use Rattle.book_base.specs.declared.end.End.{End};
ghost use Rattle.book_link.specs.declared.event.Event.{Event};
ghost use Rattle.book_link.specs.Runs.{run};
ghost use Rattle.book_link.specs.Worlds.{Setup, Happening, forgeries};
ghost use Rattle.law_seen.specs.Apart.{SessionBySession, forgeries_in};
ghost use Rattle.law_link.specs.Laws.{SetupFits, EventFits};

/// Prefix, end of stream and acknowledgement hold of each session in which no forgery is counted, whatever
/// is forged in others: of those of the same end and of those of the other, its partner among them.
pub fn session_by_session()
    ensures { (setup : Setup) (events : List Event) → SetupFits setup → AllByRecursion EventFits events
        → SessionBySession (run setup events) }
{}

/// Where no forgery is counted at all, none is counted in any session.
pub fn none_in_any()
    ensures { (e : End) (isn : ℕ) (history : List Happening) → forgeries history ≡ 0 → forgeries_in e isn history ≡ 0 }
{}
