//! The lines of bars.
ghost use Rattle.std.specs.Prelude.{◌≡◌, ◌++◌, OnOk, flat_map, option_map};
ghost use Rattle.book_scope_plan.specs.Bars.{bar_byte, bar_bytes, bar_label, bar_text, duty_id, duty_text};
ghost use Rattle.book_scope_plan.specs.Bars.{duty_words, filling_byte, drawn_bar};
ghost use Rattle.book_scope_plan.specs.Slices.{slices_of};
ghost use Rattle.draw_plan.specs.Drawn.{shown_of};

use crate::fillings::row_filling;
use crate::order::plan_time;
use crate::shown::ShownBar;
use crate::wrong::Connected;
use ao_base::push_decimal;
use book_base::Pair;
use book_keys::Plan;
use book_scope_plan::{Bar, Duty, Filling, Slice};
use key_table::Row;
use std::alloc::AllocError;

fn filling_byte(filling: Filling) -> u8
    ensures { result ≡ filling_byte filling }
{
    match filling {
        Filling::Wholly => b'#',
        Filling::Partly => b'+',
        Filling::Never => b' ',
    }
}

/// The byte of a row's bar for a slice.
fn push_bar_byte(
    out: &mut Vec<u8>,
    pair: &Pair,
    duty: Duty,
    row: &Row,
    slice: &Slice,
) -> Result<(), AllocError>
    ensures { OnOk result (out.new.items ≡ out.old.items ++ bar_byte pair.now duty row.now slice.now) }
{
    out.push(filling_byte(row_filling(pair, duty, row, slice)))?;
    Ok(())
}

/// The bytes of a row's bar.
fn push_bar_bytes(
    out: &mut Vec<u8>,
    pair: &Pair,
    duty: Duty,
    row: &Row,
    slices: &[Slice],
) -> Result<(), AllocError>
    ensures { OnOk result (out.new.items ≡ out.old.items ++ bar_bytes pair.now duty row.now slices.now) }
{
    for slice in slices {
        push_bar_byte(out, pair, duty, row, slice)?;
    }
    Ok(())
}

/// The KeyID under which a row does this: RecvID where it accepts, and SendID where it sends.
pub fn duty_id(duty: Duty, row: &Row) -> u8
    ensures { result ≡ duty_id duty row.now }
{
    match duty {
        Duty::Accepts => row.recv_id(),
        Duty::Sends => row.send_id(),
    }
}

fn duty_words(duty: Duty) -> &'static [u8]
    ensures { result.now ≡ duty_words duty }
{
    match duty {
        Duty::Accepts => b") accepts",
        Duty::Sends => b") sends",
    }
}

/// Puts what a row does behind `out`, with the KeyID under which it does. An error only when out of memory.
#[tactic(auto, unfolding(book_scope_plan::specs::Bars::duty_text))]
pub fn push_duty(out: &mut Vec<u8>, duty: Duty, row: &Row) -> Result<(), AllocError>
    ensures { OnOk result (out.new.items ≡ out.old.items ++ duty_text duty row.now) }
{
    out.extend_from_slice(b" (KeyID ")?;
    push_decimal(out, u64::from(duty_id(duty, row)))?;
    out.extend_from_slice(duty_words(duty))
}

/// What stands beside the bar of a row.
#[tactic(auto, unfolding(book_scope_plan::specs::Bars::bar_label))]
fn push_label(
    out: &mut Vec<u8>,
    name: &[u8],
    number: u8,
    duty: Duty,
    row: &Row,
) -> Result<(), AllocError>
    ensures { OnOk result (out.new.items ≡ out.old.items ++ bar_label name.now number duty row.now) }
{
    out.extend_from_slice(name)?;
    out.extend_from_slice(b" row ")?;
    push_decimal(out, u64::from(number))?;
    push_duty(out, duty, row)
}

/// The line of a bar over these slices.
#[tactic(auto, unfolding(book_scope_plan::specs::Bars::bar_line))]
fn push_shown(out: &mut Vec<u8>, slices: &[Slice], bar: Option<ShownBar>) -> Result<(), AllocError>
    ensures { OnOk result (out.new.items ≡ out.old.items ++ drawn_bar slices.now (option_map shown_of bar.entry)) }
{
    match bar {
        None => Ok(()),
        Some(bar) => {
            out.extend_from_slice(b"  |")?;
            push_bar_bytes(out, &bar.pair, bar.duty, bar.row, slices)?;
            out.extend_from_slice(b"| ")?;
            push_label(out, bar.name, bar.number, bar.duty, bar.row)?;
            out.push(b'\n')?;
            Ok(())
        }
    }
}

/// The line of a bar of a plan, whose time has these slices.
fn push_bar(
    out: &mut Vec<u8>,
    ends: &Connected,
    plan: &Plan,
    slices: &[Slice],
    bar: Bar,
) -> Result<(), AllocError>
    requires { slices.now ≡ slices_of plan.now.from plan.now.to }
    ensures { OnOk result (out.new.items ≡ out.old.items ++ bar_text ends.now.tables.a.now ends.now.tables.b.now
        ends.now.pair plan.now bar) }
{
    push_shown(out, slices, ends.shown(&plan_time(plan), bar))
}

/// The lines of these bars.
pub(crate) fn push_bar_lines(
    out: &mut Vec<u8>,
    ends: &Connected,
    plan: &Plan,
    slices: &[Slice],
    bars: &[Bar],
) -> Result<(), AllocError>
    requires { slices.now ≡ slices_of plan.now.from plan.now.to }
    ensures { OnOk result (out.new.items ≡ out.old.items ++ flat_map
        (bar_text ends.now.tables.a.now ends.now.tables.b.now ends.now.pair plan.now) bars.now) }
{
    for bar in bars {
        push_bar(out, ends, plan, slices, *bar)?;
    }
    Ok(())
}
