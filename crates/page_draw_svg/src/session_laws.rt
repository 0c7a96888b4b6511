//! Theorems about the pictures of sessions, as clauses of a function that does nothing.
ghost use Rattle.std.specs.Prelude.{◌≡◌, ◌++◌, ℕ, List, Some, codes, flat_map, length, map, option_map, slice_get};
ghost use Rattle.book_draw.specs.Folds.{lines_within};
ghost use Rattle.book_draw.specs.SessionLadders.{ends_text, session_rung_text, session_ladder};
ghost use Rattle.book_draw.specs.SessionRungs.{rungs_of_session, session_at, sessions_drawn};
ghost use Rattle.book_draw.specs.declared.fold.SessionLine.{SessionLine as Line};
ghost use Rattle.book_draw.specs.declared.session_rung.SessionEnds.{SessionEnds as Ends};
ghost use Rattle.book_draw.specs.declared.session_rung.SessionRung.{SessionRung as Segment};
ghost use Rattle.book_draw.specs.declared.span.DrawnTime.{DrawnTime as Time};
ghost use Rattle.book_draw.specs.Times.{rungs_within};
ghost use Rattle.page_draw_svg.specs.SessionPictures.{keys_drawn, line_in_row, line_of_row};
ghost use Rattle.page_draw_svg.specs.SessionPictures.{session_line_svg, session_front_svg, session_rows};
ghost use Rattle.page_draw_svg.specs.SessionPictures.{session_svg};

/// A picture has an element for each line of the session, in their order, and no other: the one of place
/// `i` stands in row `i`. The lines are those of the segments of which the text has its own, and those of the
/// segments that are left out.
pub fn elements_are_those_of_the_session()
    ensures lines { (ls : List Line) → map line_of_row (session_rows ls) ≡ ls }
    ensures rows { (ls : List Line) (i : ℕ) → slice_get (session_rows ls) i
        ≡ option_map (line_in_row i) (slice_get ls i) }
    ensures picture { (t : Time) (number : ℕ) (rs : List Segment) (e : Ends)
        → session_at number (sessions_drawn rs) ≡ Some e
        → session_svg t number rs ≡ session_front_svg e (keys_drawn (rungs_within t (rungs_of_session number rs)))
        (length (lines_within t e (rungs_of_session number rs)))
        ++ (flat_map (session_line_svg e) (session_rows (lines_within t e (rungs_of_session number rs)))
        ++ codes "</svg>\n") }
    ensures text { (t : Time) (number : ℕ) (rs : List Segment) (e : Ends)
        → session_at number (sessions_drawn rs) ≡ Some e
        → session_ladder t number rs ≡ ends_text e ++ flat_map (session_rung_text e)
        (rungs_within t (rungs_of_session number rs)) }
{}
