//! What holds of each run, and the last line of its report.
ghost use Rattle.std.specs.Prelude.{◌≡◌, ◌≤◌, ℕ, List, ◌++◌, length};
ghost use Rattle.std.specs.List.{AllByRecursion};
ghost use Rattle.book_link.specs.declared.event.Event.{Event};
ghost use Rattle.law_link.specs.Headline.{GivesFew, few_events};
ghost use Rattle.law_link.specs.Laws.{SetupFits, TablesFit, EventFits};
ghost use Rattle.book_link.specs.Reports.{report, counts_line};
ghost use Rattle.book_link.specs.Runs.{run};
ghost use Rattle.book_link.specs.Worlds.{Setup};
ghost use Rattle.law_headline.specs.GetsThrough.{GetsThrough};
ghost use Rattle.law_headline.specs.Lawful.{AtEachMoment, Lawful};

/// Each run of events that fit, over a setup that fits, is lawful, however long it is.
pub fn runs_are_lawful()
    ensures { (setup : Setup) (events : List Event) → SetupFits setup → AllByRecursion EventFits events
        → Lawful setup events }
{}

/// A run of events that fit, over a setup that fits with tables without an overlap, gets through where
/// each session was given fewer than 2^31 bytes, however long it is; and so where the events are few.
pub fn runs_get_through()
    ensures given_few { (setup : Setup) (events : List Event) → SetupFits setup → TablesFit setup
        → AllByRecursion EventFits events
        → AtEachMoment setup events GivesFew → GetsThrough setup events }
    ensures few { (setup : Setup) (events : List Event) → SetupFits setup → TablesFit setup
        → AllByRecursion EventFits events
        → length events ≤ few_events → GetsThrough setup events }
{}

/// The last line of a report says how many segments were made and how many forgeries are counted.
pub fn reports_end_in_counts()
    ensures { (setup : Setup) (events : List Event) → (front : List ℕ)
        × (report setup events ≡ front ++ counts_line (run setup events)) }
{}
