//! Theorems about ladders, as clauses of functions that do nothing.
ghost use Rattle.std.specs.Prelude.{◌≡◌, List};
ghost use Rattle.book_draw.specs.Arrows.{arrows, happened};
ghost use Rattle.book_draw.specs.Rungs.{rungs};
ghost use Rattle.book_link.specs.declared.event.Event.{Event};
ghost use Rattle.book_link.specs.Runs.{run};
ghost use Rattle.book_link.specs.Worlds.{Setup};

/// The arrows of a run's rungs are the entries of the run's history, the oldest first: each segment that
/// was made, with its maker and all that is drawn of it, and each datagram that came, with the end that
/// it came to and what the end answered. None is left out, and none is drawn beside.
pub fn arrows_are_those_of_the_run()
    ensures { (setup : Setup) (events : List Event) → arrows (rungs setup events)
        ≡ happened (run setup events).history }
{}
