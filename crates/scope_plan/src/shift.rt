//! By how much the times of one end's rows are later than those of the other's.
ghost use Rattle.std.specs.Prelude.{◌≡◌, ◌++◌, IfOk, OnOk, decimal};
ghost use Rattle.std.specs.List.{list_any};
ghost use Rattle.book_scope_plan.specs.Notes.{all_times, column_times, is_off, lifetime_times, row_times};
ghost use Rattle.book_scope_plan.specs.Notes.{shift_line, shift_of, shift_text, times_beside};

use crate::facing::Facing;
use crate::reconfiguring::is_accepting_from;
use ao_base::push_decimal;
use book_base::Pair;
use book_scope_plan::TwoTimes;
use key_table::{LATEST, Lifetime, Row};
use std::alloc::{AllocError, Global};

/// A column's times at two ends, unless it is absent at both.
fn add_column(
    times: &mut Vec<TwoTimes>,
    absent: u64,
    one: u64,
    other: u64,
) -> Result<(), AllocError>
    ensures { OnOk result (times.new.items ≡ times.old.items ++ column_times absent one other) }
{
    if one == absent && other == absent {
        return Ok(());
    }
    times.push(TwoTimes { one, other })?;
    Ok(())
}

fn add_lifetimes(
    times: &mut Vec<TwoTimes>,
    one: Lifetime,
    other: Lifetime,
) -> Result<(), AllocError>
    ensures { OnOk result (times.new.items ≡ times.old.items ++ lifetime_times one other) }
{
    add_column(times, 0, one.first, other.first)?;
    add_column(times, LATEST, one.last, other.last)
}

/// The times of both lifetimes of two rows.
fn add_both(times: &mut Vec<TwoTimes>, row: &Row, other: &Row) -> Result<(), AllocError>
    ensures { OnOk result
        (times.new.items ≡ times.old.items ++ (lifetime_times row.now.sending other.now.sending
        ++ lifetime_times row.now.accepting other.now.accepting)) }
{
    add_lifetimes(times, row.sending(), other.sending())?;
    add_lifetimes(times, row.accepting(), other.accepting())
}

/// The times of two rows, where the second accepts what the first sends.
fn add_rows(
    times: &mut Vec<TwoTimes>,
    pair: &Pair,
    row: &Row,
    other: &Row,
) -> Result<(), AllocError>
    ensures { OnOk result (times.new.items ≡ times.old.items ++ row_times pair.now row.now other.now) }
{
    if is_accepting_from(pair, row, other) {
        add_both(times, row, other)
    } else {
        Ok(())
    }
}

/// The times of a row and each row of the other end that accepts what it sends.
fn add_beside(
    times: &mut Vec<TwoTimes>,
    pair: &Pair,
    row: &Row,
    others: &[Row],
) -> Result<(), AllocError>
    ensures { OnOk result (times.new.items ≡ times.old.items ++ times_beside pair.now row.now others.now) }
{
    for other in others {
        add_rows(times, pair, row, other)?;
    }
    Ok(())
}

fn all_times(
    alloc: Global,
    pair: &Pair,
    rows: &[Row],
    others: &[Row],
) -> Result<Vec<TwoTimes>, AllocError>
    ensures { IfOk result (λ v. v.items ≡ all_times pair.now rows.now others.now) }
{
    let mut times = Vec::new(alloc);
    for row in rows {
        add_beside(&mut times, pair, row, others)?;
    }
    Ok(times)
}

/// Whether the second time isn't so much later.
fn is_off(seconds: u64, times: &TwoTimes) -> bool
    ensures { result ≡ is_off seconds times.now }
{
    match times.other.checked_sub(seconds) {
        Some(one) => one != times.one,
        None => true,
    }
}

fn has_off(seconds: u64, times: &[TwoTimes]) -> bool
    ensures { result ≡ list_any (is_off seconds) times.now }
{
    times.iter().any(|one| is_off(seconds, one))
}

/// By how many seconds the second times are later: all by the same, which are whole hours.
fn shift_of(times: &[TwoTimes]) -> Option<u64>
    ensures { result ≡ shift_of times.now }
{
    match times {
        [first, rest @ ..] => {
            if first.one >= first.other {
                return None;
            }
            let seconds = first.other - first.one;
            if seconds % 3600 == 0 && !has_off(seconds, rest) {
                Some(seconds)
            } else {
                None
            }
        }
        [] => None,
    }
}

fn push_seconds(out: &mut Vec<u8>, seconds: u64) -> Result<(), AllocError>
    ensures { OnOk result (out.new.items ≡ out.old.items ++ decimal seconds) }
{
    push_decimal(out, seconds)
}

fn push_shift_line(
    out: &mut Vec<u8>,
    name: &[u8],
    later: &[u8],
    seconds: u64,
) -> Result<(), AllocError>
    ensures { OnOk result (out.new.items ≡ out.old.items ++ shift_line name.now later.now seconds) }
{
    out.extend_from_slice(b"  note: ")?;
    out.extend_from_slice(later)?;
    out.extend_from_slice(b"'s times are all ")?;
    push_seconds(out, seconds)?;
    out.extend_from_slice(b" s later than ")?;
    out.extend_from_slice(name)?;
    out.extend_from_slice(b"'s\n")?;
    Ok(())
}

fn push_shift_text(
    out: &mut Vec<u8>,
    name: &[u8],
    later: &[u8],
    shift: Option<u64>,
) -> Result<(), AllocError>
    ensures { OnOk result (out.new.items ≡ out.old.items ++ shift_text name.now later.now shift) }
{
    match shift {
        Some(seconds) => push_shift_line(out, name, later, seconds),
        None => Ok(()),
    }
}

/// That the times of the other end are all so much later, where they are.
pub(crate) fn push_shift(out: &mut Vec<u8>, facing: &Facing) -> Result<(), AllocError>
    ensures { OnOk result (out.new.items ≡ out.old.items ++ shift_text facing.now.node.now.name
        facing.now.other.now.name
        (shift_of (all_times facing.now.pair facing.now.node.now.rows facing.now.other.now.rows))) }
{
    let alloc = *out.allocator();
    let (rows, others) = (facing.node.entries(), facing.other.entries());
    let times = all_times(alloc, &facing.pair, rows, others)?;
    let shift = shift_of(times.as_slice());
    push_shift_text(out, facing.node.name(), facing.other.name(), shift)
}
