//! The laws of the segments that show nothing new, and of those that an older connection doesn't hide.
ghost use Rattle.std.specs.Prelude.{◌≡◌, ℕ, List};
ghost use Rattle.book_cmd_check.specs.Captures.{Connection};
ghost use Rattle.book_segments.specs.Segments.{Read, Segment};
ghost use Rattle.book_keys.specs.Rows.{Row, Table};
ghost use Rattle.book_sessions.specs.declared.retiring.MayGo.TheVariants.{Yes};
ghost use Rattle.book_sessions.specs.declared.uses.KeyUse.{KeyUse};
ghost use Rattle.book_sessions.specs.declared.uses.SeenSegment.{SeenSegment};
ghost use Rattle.book_sessions.specs.Counts.{no_signs};
ghost use Rattle.book_sessions.specs.Laps.{Judging};
ghost use Rattle.book_sessions.specs.Listening.{Listening, listen};
ghost use Rattle.book_sessions.specs.Retiring.{may_go};
ghost use Rattle.book_sessions.specs.Sessions.{SessionTable, and_segment, session_of, signs_of};
ghost use Rattle.law_sessions.specs.Anew.{IsOpenedAnew, IsUnhidden, holding};
ghost use Rattle.law_sessions.specs.Old.{IsLast, IsOld, evidence_at};

/// A segment shows nothing of its connection where it doesn't pass the check, as a forged one doesn't, one in a
/// direction whose handshake wasn't seen, and one without TCP-AO; where it is a SYN, or an ACK alone; and where
/// what passed before it in its connection reached as far, so that a copy of it may have been seen.
pub fn nothing_old_shows_anything()
    ensures { (s : SeenSegment) (uses : List KeyUse) → IsOld s uses → signs_of s uses ≡ no_signs }
{}

/// A segment that shows nothing frees no row: if a row may go once it was seen, it might go before, whatever is
/// taken for the latest time. So no replay, no ACK alone and no forged segment turns the answer into a yes.
pub fn nothing_old_frees_a_row()
    ensures { (tables : List Table) (t : Table) (n : ℕ) (r : Row) (latest : ℕ) (table : SessionTable) (s : SeenSegment)
        → IsLast s table.uses → signs_of s table.uses ≡ no_signs
        → may_go (evidence_at latest (and_segment (session_of s table.uses) s table)) tables t n r ≡ Yes
        → may_go (evidence_at latest table) tables t n r ≡ Yes }
{}

/// An older connection hides nothing of the one that followed it: between sockets that a verified SYN opened anew a
/// segment that isn't a SYN is verified by the numbers of the older connection, or what is told of it is what is told
/// where no connection is held between its sockets. So right MACs of a connection whose SYN with ACK isn't verified
/// are never told as wrong ones for an older connection's sake.
pub fn older_connections_hide_nothing()
    ensures { (j : Judging) (l : Listening) (others : List Connection) (now : ℕ) (d : Segment) → IsOpenedAnew d l others
        → IsUnhidden (listen j l now (Read d)) (listen j (holding others l) now (Read d)) }
{}
