//! The laws of the JSON.
ghost use Rattle.std.specs.Prelude.{◌≡◌, ◌+◌, ℕ, [], List, None, length, map, true};
ghost use Rattle.book_captures.specs.Captures.{CapturePacket};
ghost use Rattle.book_sessions.specs.Retiring.{Evidence};
ghost use Rattle.book_sessions.specs.Foreign.{foreign_sessions, listed_sessions, own_sessions};
ghost use Rattle.book_sessions.specs.Sessions.{SessionTable};
ghost use Rattle.page_sessions_json.specs.SessionJson.{rows_json, session_json};
ghost use Rattle.page_sessions_json.specs.TableSeries.{Series, early_text};
ghost use Rattle.book_keys.specs.Rows.{Row, Table};
ghost use Rattle.book_scope_plan.specs.AdminNames.{KeyFile};

/// The JSON has as many entries as the table has sessions, where all are listed, and as many of a node as it has rows.
/// Each session is foreign or it isn't.
pub fn each_session_and_row_has_an_entry()
    ensures sessions { (tables : List Table) (t : SessionTable)
        → length (map (session_json t.uses) (listed_sessions true tables t)) ≡ t.sessions }
    ensures foreign { (tables : List Table) (t : SessionTable)
        → length (own_sessions tables t) + length (foreign_sessions tables t) ≡ t.sessions }
    ensures rows { (keys : KeyFile) (e : Evidence) (t : Table) (n : ℕ) (rows : List Row)
        → length (rows_json keys e t n rows) ≡ length rows }
{}

/// No table is written in front of a packet where none is asked for.
pub fn no_table_is_early()
    ensures { (s : Series) (packets : List CapturePacket) → s.request.every ≡ None → early_text s packets ≡ [] }
{}
