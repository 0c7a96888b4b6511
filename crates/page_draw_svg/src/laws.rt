//! Theorems about pictures, as clauses of a function that does nothing.
ghost use Rattle.std.specs.Prelude.{◌≡◌, List, map};
ghost use Rattle.book_draw.specs.Arrows.{arrows, happened};
ghost use Rattle.book_draw.specs.declared.rung.Rung.{Rung as Step};
ghost use Rattle.book_draw.specs.Rungs.{rungs};
ghost use Rattle.page_draw_svg.specs.Placements.{rung_of_placed, rungs_placed};
ghost use Rattle.book_link.specs.declared.event.Event.{Event};
ghost use Rattle.book_link.specs.Runs.{run};
ghost use Rattle.book_link.specs.Worlds.{Setup};

/// A picture has an element for each rung, in order, and no other; so its arrows are the entries of the
/// run's history, the oldest first: each segment that was made, and each datagram that came, with what the
/// end answered.
pub fn elements_are_those_of_the_run()
    ensures rungs { (rs : List Step) → map rung_of_placed (rungs_placed rs) ≡ rs }
    ensures arrows { (setup : Setup) (events : List Event)
        → arrows (map rung_of_placed (rungs_placed (rungs setup events))) ≡ happened (run setup events).history }
{}
