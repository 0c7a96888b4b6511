//! The margins of a planned rollover.
ghost use Rattle.std.specs.Prelude.{◌≡◌, Some};
ghost use Rattle.book_keys.specs.Plans.{mirrored, rows_at};
ghost use Rattle.book_plans.specs.declared.margin.Margin.TheVariants as margin;
ghost use Rattle.book_plans.specs.Margins.{AreOrdered, AlignedAtLead, AlignedAtLag, IsMargin, narrower, narrowest};
ghost use Rattle.book_plans.specs.Margins.{lead_margin_of, lag_margin_of};
ghost use Rattle.key_plan.specs.Asked.{margin_of_row, margin_of_plan};

use crate::way::{Given, narrower, narrowest};
use book_base::Pair;
use book_plans::Margin;
use key_table::{Tables, mirrored};

/// What the tables of both ends leave.
fn margin_of_plan(given: Given, tables: &Tables, pair: &Pair) -> Option<Margin>
    ensures { result ≡ margin_of_plan given (rows_at tables.now pair.now.local.address)
        (rows_at tables.now pair.now.remote.address) pair.now }
{
    let here = tables.rows_at(&pair.local.address);
    let there = tables.rows_at(&pair.remote.address);
    let back = mirrored(pair);
    narrower(
        narrowest(given, pair, here, there),
        narrowest(given, &back, there, here),
    )
}

/// With how many seconds of lead the tables of the two ends of a connection are aligned, where the lag
/// is `lag` seconds; end A is the local one. `None` exactly where they are with no lead, not even 0;
/// `Any` exactly where they are with each. An address that no node has stands for a table without rows.
///
/// Where `lint` says `Aligned`, it does so with another lead exactly within this margin.
pub fn lead_margin(tables: &Tables, pair: &Pair, lag: u64) -> Option<Margin>
    ensures value { result ≡ lead_margin_of tables.now pair.now lag }
    ensures greatest { AreOrdered (rows_at tables.now pair.now.local.address)
        → AreOrdered (rows_at tables.now pair.now.remote.address)
        → IsMargin (AlignedAtLead (rows_at tables.now pair.now.local.address)
        (rows_at tables.now pair.now.remote.address) pair.now lag) result }
{
    margin_of_plan(Given::Lag(lag), tables, pair)
}

/// With how many seconds of lag the tables of the two ends of a connection are aligned, where the lead
/// is `lead` seconds; else as `lead_margin`.
pub fn lag_margin(tables: &Tables, pair: &Pair, lead: u64) -> Option<Margin>
    ensures value { result ≡ lag_margin_of tables.now pair.now lead }
    ensures greatest { AreOrdered (rows_at tables.now pair.now.local.address)
        → AreOrdered (rows_at tables.now pair.now.remote.address)
        → IsMargin (AlignedAtLag (rows_at tables.now pair.now.local.address)
        (rows_at tables.now pair.now.remote.address) pair.now lead) result }
{
    margin_of_plan(Given::Lead(lead), tables, pair)
}
