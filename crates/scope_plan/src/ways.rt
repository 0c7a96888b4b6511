//! What is said of a way out: another lifetime of a row, or what stands in its way.
ghost use Rattle.std.specs.Prelude.{◌≡◌, ◌≤◌, ◌++◌, ◌||◌, IfOk, OnOk, codes, decimal, length};
ghost use Rattle.toml.specs.View.{table_view};
ghost use Rattle.book_keys.specs.Rows.{row_limit};
ghost use Rattle.book_plans.specs.Ways.{accepting_obstacle};
ghost use Rattle.key_plan.specs.Sides.{side_of};
ghost use Rattle.book_scope_plan.specs.FindingTexts.{row_name, text_if};
ghost use Rattle.book_scope_plan.specs.WayTexts.{accepting_line, is_clear, moved_text, obstacle_text, sending_line};
ghost use Rattle.book_scope_plan.specs.WayTexts.{sending_way, set_text, set_words, side_facing, way_line};
ghost use Rattle.scope_plan.specs.Facings.{facing_of};

use crate::facing::Facing;
use crate::lifetimes::push_number;
use key_plan::{Obstacle, Side, accepting_obstacle};
use key_table::{Lifetime, Row};
use plan_texts::row_name;
use scope_texts::push_key_time;
use std::alloc::{AllocError, Global};

#[tactic(auto, unfolding(book_scope_plan::specs::WayTexts::set_text))]
fn push_set(out: &mut Vec<u8>, column: &[u8], row: &[u8], time: u64) -> Result<(), AllocError>
    ensures { OnOk result (out.new.items ≡ out.old.items ++ set_text column.now row.now time) }
{
    out.extend_from_slice(column)?;
    out.extend_from_slice(b" of ")?;
    out.extend_from_slice(row)?;
    out.extend_from_slice(b" to ")?;
    push_key_time(out, time)
}

fn push_set_if(
    out: &mut Vec<u8>,
    holds: bool,
    column: &[u8],
    row: &[u8],
    time: u64,
) -> Result<(), AllocError>
    ensures { OnOk result (out.new.items ≡ out.old.items ++ text_if holds (set_text column.now row.now time)) }
{
    if holds {
        push_set(out, column, row, time)
    } else {
        Ok(())
    }
}

pub(crate) fn push_if(out: &mut Vec<u8>, holds: bool, words: &[u8]) -> Result<(), AllocError>
    ensures { OnOk result (out.new.items ≡ out.old.items ++ text_if holds words.now) }
{
    if holds {
        out.extend_from_slice(words)
    } else {
        Ok(())
    }
}

/// The columns of a lifetime that change, by their names, and to which times.
#[tactic(auto, unfolding(book_scope_plan::specs::WayTexts::moved_text))]
fn push_moved(
    out: &mut Vec<u8>,
    start: &[u8],
    end: &[u8],
    row: &[u8],
    before: Lifetime,
    after: Lifetime,
) -> Result<(), AllocError>
    ensures { OnOk result (out.new.items ≡ out.old.items ++ moved_text start.now end.now row.now before after) }
{
    let begins = before.first != after.first;
    let ends = before.last != after.last;
    push_set_if(out, begins, start, row, after.first)?;
    push_if(out, begins && ends, b" and ")?;
    push_set_if(out, ends, end, row, after.last)
}

fn push_overlap(out: &mut Vec<u8>, number: u8) -> Result<(), AllocError>
    ensures { OnOk result (out.new.items ≡ out.old.items ++ (codes "it would overlap row " ++ decimal number)) }
{
    out.extend_from_slice(b"it would overlap row ")?;
    push_number(out, number)?;
    Ok(())
}

/// Why another lifetime of a row won't do.
#[tactic(auto, unfolding(book_scope_plan::specs::WayTexts::obstacle_text))]
fn push_obstacle(out: &mut Vec<u8>, obstacle: Obstacle) -> Result<(), AllocError>
    ensures { OnOk result (out.new.items ≡ out.old.items ++ obstacle_text obstacle) }
{
    match obstacle {
        Obstacle::Empty => out.extend_from_slice(b"it would end before it begins"),
        Obstacle::Endless => {
            out.extend_from_slice(b"that is the last time of all, so it would never end")
        }
        Obstacle::Overlap(number) => push_overlap(out, number),
        Obstacle::Refused => {
            out.extend_from_slice(b"the other end wouldn't take it for long enough")
        }
        Obstacle::Gap => out.extend_from_slice(b"at some time no row would be left to send with"),
    }
}

#[tactic(auto, unfolding(book_scope_plan::specs::WayTexts::set_words))]
fn set_words(told: bool) -> &'static [u8]
    ensures { result.now ≡ set_words told }
{
    if told { b"    or set " } else { b"    set " }
}

fn push_obstacle_end(out: &mut Vec<u8>, obstacle: Obstacle) -> Result<(), AllocError>
    ensures { OnOk result (out.new.items ≡ out.old.items ++ (obstacle_text obstacle ++ codes "\n")) }
{
    push_obstacle(out, obstacle)?;
    out.extend_from_slice(b"\n")
}

/// What stands in the way of a change.
fn push_stuck(out: &mut Vec<u8>, change: &[u8], obstacle: Obstacle) -> Result<(), AllocError>
    ensures { OnOk result
        (out.new.items ≡ out.old.items ++ (codes "    moving "
        ++ (change.now ++ (codes " won't do: " ++ (obstacle_text obstacle ++ codes "\n"))))) }
{
    out.extend_from_slice(b"    moving ")?;
    out.extend_from_slice(change)?;
    out.extend_from_slice(b" won't do: ")?;
    push_obstacle_end(out, obstacle)?;
    Ok(())
}

/// A change that mends, or what stands in its way.
#[tactic(auto, unfolding(book_scope_plan::specs::WayTexts::way_line))]
fn push_way(
    out: &mut Vec<u8>,
    told: bool,
    change: &[u8],
    obstacle: Option<Obstacle>,
) -> Result<(), AllocError>
    ensures { OnOk result (out.new.items ≡ out.old.items ++ way_line told change.now obstacle) }
{
    match obstacle {
        None => {
            out.extend_from_slice(set_words(told))?;
            out.extend_from_slice(change)?;
            out.extend_from_slice(b"\n")
        }
        Some(obstacle) => push_stuck(out, change, obstacle),
    }
}

fn is_clear(obstacle: Option<Obstacle>) -> bool
    ensures { result ≡ is_clear obstacle }
{
    match obstacle {
        None => true,
        Some(_) => false,
    }
}

/// The end of a connection that sees it so.
fn side<'a>(facing: &Facing<'a>) -> Side<'a>
    ensures side { side_of result ≡ side_facing (facing_of facing.now) }
    ensures few { length result.rows.now ≤ row_limit }
{
    // It tells that a table has at most 64 rows.
    let _count = facing.node.rows();
    Side {
        rows: facing.node.entries(),
        others: facing.other.entries(),
        pair: facing.pair,
        plan: facing.plan,
    }
}

/// What stands in the way of another send lifetime of a row of the node.
fn sending_way(
    alloc: Global,
    facing: &Facing,
    number: u8,
    row: &Row,
    sending: Lifetime,
) -> Result<Option<Obstacle>, AllocError>
    ensures { IfOk result (λ o. o ≡ sending_way (facing_of facing.now) number row.now sending) }
{
    let side = side(facing);
    side.sending_obstacle(alloc, number, row, sending)
}

/// What stands in the way of another accept lifetime of a row of the other end.
fn accepting_way(facing: &Facing, number: u8, other: &Row, accepting: Lifetime) -> Option<Obstacle>
    ensures { result ≡ accepting_obstacle facing.now.other.now.rows number other.now accepting }
{
    // It tells that a table has at most 64 rows.
    let _count = facing.other.rows();
    accepting_obstacle(facing.other.entries(), number, other, accepting)
}

fn sending_change(
    alloc: Global,
    facing: &Facing,
    number: u8,
    row: &Row,
    sending: Lifetime,
) -> Result<Vec<u8>, AllocError>
    ensures { IfOk result (λ text. text.items ≡ moved_text (codes "SendLifetimeStart") (codes "SendLifetimeEnd")
        (row_name (table_view facing.now.document.now) facing.now.node.now.name number) row.now.sending sending) }
{
    let name = row_name(alloc, facing.document, facing.node.name(), number)?;
    let start = b"SendLifetimeStart";
    let end = b"SendLifetimeEnd";
    let mut text = Vec::new(alloc);
    push_moved(
        &mut text,
        start,
        end,
        name.as_slice(),
        row.sending(),
        sending,
    )?;
    Ok(text)
}

fn accepting_change(
    alloc: Global,
    facing: &Facing,
    number: u8,
    other: &Row,
    accepting: Lifetime,
) -> Result<Vec<u8>, AllocError>
    ensures { IfOk result (λ text. text.items ≡ moved_text (codes "AcceptLifetimeStart") (codes "AcceptLifetimeEnd")
        (row_name (table_view facing.now.document.now) facing.now.other.now.name number) other.now.accepting
        accepting) }
{
    let name = row_name(alloc, facing.document, facing.other.name(), number)?;
    let start = b"AcceptLifetimeStart";
    let end = b"AcceptLifetimeEnd";
    let mut text = Vec::new(alloc);
    push_moved(
        &mut text,
        start,
        end,
        name.as_slice(),
        other.accepting(),
        accepting,
    )?;
    Ok(text)
}

/// Another send lifetime of a row of the node, as a way out; whether one was told by now.
#[tactic(auto, unfolding(book_scope_plan::specs::WayTexts::sending_line))]
pub(crate) fn push_sending_line(
    out: &mut Vec<u8>,
    facing: &Facing,
    told: bool,
    number: u8,
    row: &Row,
    sending: Lifetime,
) -> Result<bool, AllocError>
    ensures text { OnOk result (out.new.items ≡ out.old.items
        ++ sending_line (facing_of facing.now) told number row.now sending) }
    ensures told { IfOk result
        (λ t. t ≡ (told || is_clear (sending_way (facing_of facing.now) number row.now sending))) }
{
    let alloc = *out.allocator();
    let obstacle = sending_way(alloc, facing, number, row, sending)?;
    let change = sending_change(alloc, facing, number, row, sending)?;
    push_way(out, told, change.as_slice(), obstacle)?;
    Ok(told || is_clear(obstacle))
}

/// Another accept lifetime of a row of the other end, as a way out; whether one was told by now.
#[tactic(auto, unfolding(book_scope_plan::specs::WayTexts::accepting_line))]
pub(crate) fn push_accepting_line(
    out: &mut Vec<u8>,
    facing: &Facing,
    told: bool,
    number: u8,
    other: &Row,
    accepting: Lifetime,
) -> Result<bool, AllocError>
    ensures text { OnOk result (out.new.items ≡ out.old.items
        ++ accepting_line (facing_of facing.now) told number other.now accepting) }
    ensures told { IfOk result
        (λ t. t ≡ (told || is_clear (accepting_obstacle facing.now.other.now.rows number other.now accepting))) }
{
    let alloc = *out.allocator();
    let obstacle = accepting_way(facing, number, other, accepting);
    let change = accepting_change(alloc, facing, number, other, accepting)?;
    push_way(out, told, change.as_slice(), obstacle)?;
    Ok(told || is_clear(obstacle))
}
