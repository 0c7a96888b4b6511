//! Theorems about the ladders of sessions, as clauses of functions that do nothing.
ghost use Rattle.std.specs.Prelude.{◌≡◌, ◌≤◌, ℕ, List, length, map, option_map};
ghost use Rattle.std.specs.List.{find};
ghost use Rattle.book_captures.specs.Captures.{CapturePacket};
ghost use Rattle.book_cmd_check.specs.declared.given.GivenIsns.{GivenIsns};
ghost use Rattle.book_sessions.specs.Counts.{segments_heard};
ghost use Rattle.book_sessions.specs.Laps.{Judging};
ghost use Rattle.book_sessions.specs.Listening.{listening_behind};
ghost use Rattle.book_sessions.specs.Sessions.{all_stored, sessions_of};
ghost use Rattle.book_sessions.specs.SessionTexts.{is_of_session};
ghost use Rattle.book_draw.specs.declared.session_rung.SessionEnds.{SessionEnds as Ends};
ghost use Rattle.book_draw.specs.declared.session_rung.SessionRung.{SessionRung as Segment};
ghost use Rattle.book_draw.specs.declared.span.DrawnTime.{DrawnTime as Time};
ghost use Rattle.book_draw.specs.Folds.{lines_count, lines_within};
ghost use Rattle.book_draw.specs.SessionRungs.{counted_in, ends_of_use, rungs_in, rungs_of_session, seen_of};
ghost use Rattle.book_draw.specs.SessionRungs.{session_at, sessions_drawn};

/// The rungs of a capture are its segments, in their order, each with its ids and with what comes of it.
pub fn rungs_are_those_of_the_segments()
    ensures { (j : Judging) (given : List GivenIsns) (packets : List CapturePacket)
        → map seen_of (rungs_in j given packets) ≡ segments_heard j (listening_behind given) (all_stored packets) }
{}

/// The sessions of the rungs are those of the table of sessions, number by number: as many, each between
/// the sockets that its heading names, the first of them at the left; and a session has as many rungs as
/// the table counts segments of it.
pub fn rungs_are_those_of_the_table()
    ensures sessions { (j : Judging) (given : List GivenIsns) (packets : List CapturePacket)
        → length (sessions_drawn (rungs_in j given packets)) ≡ (sessions_of j given packets).sessions }
    ensures ends { (j : Judging) (given : List GivenIsns) (packets : List CapturePacket) (number : ℕ)
        → session_at number (sessions_drawn (rungs_in j given packets))
        ≡ option_map ends_of_use (find (is_of_session number) (sessions_of j given packets).uses) }
    ensures counted { (j : Judging) (given : List GivenIsns) (packets : List CapturePacket) (number : ℕ)
        → length (rungs_of_session number (rungs_in j given packets))
        ≡ counted_in number (sessions_of j given packets).uses }
{}

/// The lines of segments stand for all of them, whatever time is drawn: each line for one, or for as many as it
/// says.
pub fn lines_stand_for_all()
    ensures { (t : Time) (e : Ends) (rs : List Segment) → length rs ≤ 18446744073709551615
        → lines_count (lines_within t e rs) ≡ length rs }
{}
