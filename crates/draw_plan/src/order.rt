//! The bars of a connection, in order.
ghost use Rattle.std.specs.Prelude.{◌≡◌, ◌++◌, ◌≤◌, IfOk, OnOk, length};
ghost use Rattle.std.specs.List.{list_any};
ghost use Rattle.book_scope_plan.specs.BarOrders.{accept_bars, accepts_alone, accepts_under, all_sending_bars};
ghost use Rattle.book_scope_plan.specs.BarOrders.{bar_if, bars_of, bars_of_way, is_doing_in, plan_time, sending_bars};
ghost use Rattle.book_scope_plan.specs.BarOrders.{sends_under};
ghost use Rattle.book_keys.specs.Rows.{row_limit};
ghost use Rattle.book_scope_plan.specs.CalendarTexts.{side_of};
ghost use Rattle.book_scope_plan.specs.declared.duty.Duty.TheVariants.{Accepts as accepts};
ghost use Rattle.book_base.specs.declared.end.End.TheVariants.{A as a_end, B as b_end};
ghost use Rattle.draw_plan.specs.Drawn.{way_of};

use crate::fillings::{is_filled, row_filling};
use book_base::{End, Pair};
use book_keys::Plan;
use book_scope_plan::{Bar, Duty, Slice};
use key_table::{Row, Table, mirrored};
use std::alloc::{AllocError, Global};

/// What goes one way over a connection: the end that sends, the pair as it sees it, the pair as the other end
/// sees it, the time that is drawn, and the rows of the other end.
#[derive(Clone, Copy)]
pub(crate) struct OneWay<'a> {
    pub(crate) sender: End,
    pub(crate) pair: Pair,
    pub(crate) facing: Pair,
    pub(crate) time: Slice,
    pub(crate) others: &'a [Row],
}

/// Whether the row does this at some second of the time.
fn is_doing_in(pair: &Pair, time: &Slice, duty: Duty, row: &Row) -> bool
    ensures { result ≡ is_doing_in pair.now time.now duty row.now }
{
    is_filled(row_filling(pair, duty, row, time))
}

fn accepts_under(pair: &Pair, time: &Slice, id: u8, row: &Row) -> bool
    ensures { result ≡ accepts_under pair.now time.now id row.now }
{
    is_doing_in(pair, time, Duty::Accepts, row) && row.recv_id() == id
}

fn sends_under(pair: &Pair, time: &Slice, id: u8, row: &Row) -> bool
    ensures { result ≡ sends_under pair.now time.now id row.now }
{
    is_doing_in(pair, time, Duty::Sends, row) && row.send_id() == id
}

/// Whether one of the rows may send under the id at some second of the time.
fn is_sent_with(pair: &Pair, time: &Slice, id: u8, rows: &[Row]) -> bool
    ensures { result ≡ list_any (sends_under pair.now time.now id) rows.now }
{
    rows.iter().any(|row| sends_under(pair, time, id, row))
}

impl OneWay<'_> {
    /// Whether the row accepts at some second, and none of the sender's rows sends under its id.
    fn accepts_alone(&self, senders: &[Row], row: &Row) -> bool
        ensures { result ≡ accepts_alone self.now.facing self.now.pair self.now.time senders.now row.now }
    {
        is_doing_in(&self.facing, &self.time, Duty::Accepts, row)
            && !is_sent_with(&self.pair, &self.time, row.recv_id(), senders)
    }

    /// The end that accepts.
    fn accepter(&self) -> End
        ensures { result ≡ side_of self.now.sender b_end a_end }
    {
        match self.sender {
            End::A => End::B,
            End::B => End::A,
        }
    }
}

fn push_bar_if(bars: &mut Vec<Bar>, holds: bool, end: End, number: u8) -> Result<(), AllocError>
    ensures { OnOk result (bars.new.items ≡ bars.old.items ++ bar_if holds end number accepts) }
{
    if holds {
        bars.push(Bar {
            end,
            number,
            duty: Duty::Accepts,
        })?;
    }
    Ok(())
}

/// The bars of the rows of the other end that accept under the id.
fn push_met(bars: &mut Vec<Bar>, way: &OneWay, id: u8) -> Result<(), AllocError>
    requires { length way.now.others.now ≤ row_limit }
    ensures { OnOk result (bars.new.items ≡ bars.old.items ++ accept_bars
        (accepts_under way.now.facing way.now.time id) (side_of way.now.sender b_end a_end) 1 way.now.others.now) }
{
    let end = way.accepter();
    for (i, row) in way.others.iter().enumerate() {
        let holds = accepts_under(&way.facing, &way.time, id, row);
        push_bar_if(bars, holds, end, (i + 1) as u8)?;
    }
    Ok(())
}

/// The bars of the rows of the other end that accept where none of the sender's rows sends.
fn push_alone(bars: &mut Vec<Bar>, way: &OneWay, senders: &[Row]) -> Result<(), AllocError>
    requires { length way.now.others.now ≤ row_limit }
    ensures { OnOk result (bars.new.items ≡ bars.old.items ++ accept_bars
        (accepts_alone way.now.facing way.now.pair way.now.time senders.now) (side_of way.now.sender b_end a_end) 1
        way.now.others.now) }
{
    let end = way.accepter();
    for (i, row) in way.others.iter().enumerate() {
        let holds = way.accepts_alone(senders, row);
        push_bar_if(bars, holds, end, (i + 1) as u8)?;
    }
    Ok(())
}

/// The bar of a row that sends, and those of the rows that accept under its id.
fn push_sending(bars: &mut Vec<Bar>, way: &OneWay, number: u8, row: &Row) -> Result<(), AllocError>
    requires { length way.now.others.now ≤ row_limit }
    ensures { OnOk result (bars.new.items ≡ bars.old.items ++ sending_bars (way_of way.now) number row.now) }
{
    if is_doing_in(&way.pair, &way.time, Duty::Sends, row) {
        bars.push(Bar {
            end: way.sender,
            number,
            duty: Duty::Sends,
        })?;
        push_met(bars, way, row.send_id())
    } else {
        Ok(())
    }
}

/// So for each of the sender's rows.
fn push_all_sending(bars: &mut Vec<Bar>, way: &OneWay, rows: &[Row]) -> Result<(), AllocError>
    requires few { length way.now.others.now ≤ row_limit }
    requires rows { length rows.now ≤ row_limit }
    ensures { OnOk result (bars.new.items ≡ bars.old.items ++ all_sending_bars (way_of way.now) 1 rows.now) }
{
    for (i, row) in rows.iter().enumerate() {
        push_sending(bars, way, (i + 1) as u8, row)?;
    }
    Ok(())
}

/// The bars of one way.
fn push_way(bars: &mut Vec<Bar>, way: &OneWay, rows: &[Row]) -> Result<(), AllocError>
    requires few { length way.now.others.now ≤ row_limit }
    requires rows { length rows.now ≤ row_limit }
    ensures { OnOk result (bars.new.items ≡ bars.old.items ++ bars_of_way (way_of way.now) rows.now) }
{
    push_all_sending(bars, way, rows)?;
    push_alone(bars, way, rows)
}

/// The time of a plan.
pub fn plan_time(plan: &Plan) -> Slice
    ensures { result ≡ plan_time plan.now }
{
    Slice {
        first: plan.from,
        last: plan.to,
    }
}

/// The bars of a connection: what A sends to B, and what B sends to A.
#[tactic(auto, unfolding(book_scope_plan::specs::BarOrders::bars_of))]
fn both_ways(
    alloc: Global,
    a: &Table,
    b: &Table,
    pair: &Pair,
    plan: &Plan,
) -> Result<Vec<Bar>, AllocError>
    ensures { IfOk result (λ v. v.items ≡ bars_of a.now b.now pair.now plan.now) }
{
    // They tell that a table has at most 64 rows, so that each number fits.
    let _a = a.rows();
    let _b = b.rows();
    let there = OneWay {
        sender: End::A,
        pair: *pair,
        facing: mirrored(pair),
        time: plan_time(plan),
        others: b.entries(),
    };
    let back = OneWay {
        sender: End::B,
        pair: there.facing,
        facing: *pair,
        time: there.time,
        others: a.entries(),
    };
    let mut bars = Vec::new(alloc);
    push_way(&mut bars, &there, a.entries())?;
    push_way(&mut bars, &back, b.entries())?;
    Ok(bars)
}

/// The bars of a connection whose ends have the tables `a` and `b`, at most 8,448; `pair` is as end A sees it.
/// First what A sends to B: for each row of A that may send over it from `plan.from` to `plan.to` its bar, and
/// right after it those of the rows of B that accept under its SendID, and at the end those of the rows of B that
/// accept where none of A sends. Then so what B sends to A. An error only when out of memory.
pub fn bars_of(
    alloc: Global,
    a: &Table,
    b: &Table,
    pair: &Pair,
    plan: &Plan,
) -> Result<Vec<Bar>, AllocError>
    ensures bars { IfOk result (λ v. v.items ≡ bars_of a.now b.now pair.now plan.now) }
    ensures few { IfOk result (λ v. length v.items ≤ 8448) }
{
    // They tell that a table has at most 64 rows.
    let _a = a.rows();
    let _b = b.rows();
    let bars = both_ways(alloc, a, b, pair, plan)?;
    Ok(bars)
}
