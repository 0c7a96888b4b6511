//! Whether a row may go.
ghost use Rattle.std.specs.Prelude.{◌≡◌, ◌&&◌, not};
ghost use Rattle.book_sessions.specs.Retiring.{all_left, all_without, is_dispensable, may_go, sees_peers};

use crate::evidence::Evidence;
use crate::left::all_left;
use crate::peers::sees_peers;
use crate::without::{all_without, is_in_use};
use book_sessions::MayGo;
use key_table::{Row, Table, Tables};

// Whether all who may use the row were seen, and do without it.
fn is_unused(evidence: &Evidence, table: &Table, number: u64, row: &Row) -> bool
    ensures { result ≡ (sees_peers evidence.now.uses evidence.now.live table.now row.now
        && all_without evidence.now table.now number row.now) }
{
    sees_peers(evidence, table, row) && all_without(evidence, table, number, row)
}

// Whether no packet may be missing, and all have another row to send with.
fn is_spared(evidence: &Evidence, tables: &Tables, table: &Table, row: &Row) -> bool
    ensures { result ≡ (all_left evidence.now tables.now table.now row.now && not evidence.now.doubt) }
{
    all_left(evidence, tables, table, row) && !evidence.doubt()
}

fn is_dispensable(
    evidence: &Evidence,
    tables: &Tables,
    table: &Table,
    number: u64,
    row: &Row,
) -> bool
    ensures { result ≡ is_dispensable evidence.now tables.now table.now number row.now }
{
    is_unused(evidence, table, number, row) && is_spared(evidence, tables, table, row)
}

/// Whether row number `number` of a node may go: Yes where each peer that it names was seen in a connection that goes
/// on and that no other followed, both sides of all of these do without it, the rows that are left send in its place,
/// and no packet was passed over that may be a segment; No where a verified segment of a connection that goes on
/// wants it still; and else Unknown.
#[tactic(auto, unfolding(book_sessions::specs::Retiring::may_go))]
pub fn may_go(evidence: &Evidence, tables: &Tables, table: &Table, number: u64, row: &Row) -> MayGo
    ensures { result ≡ may_go evidence.now tables.now table.now number row.now }
{
    if is_dispensable(evidence, tables, table, number, row) {
        return MayGo::Yes;
    }
    if is_in_use(evidence, table, number, row) {
        return MayGo::No;
    }
    MayGo::Unknown
}
