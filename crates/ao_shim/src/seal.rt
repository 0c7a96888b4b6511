//! A datagram of the own kernel is sealed.
ghost use Rattle.std.specs.Prelude.{◌≡◌, ◌+◌, ◌-◌, ◌/◌, ◌≤◌, ◌++◌, false, length, drop, Some, slice_get};
ghost use Rattle.book_segments.specs.Spelling.{AreBytes};
ghost use Rattle.book_shim.specs.Relaying.{with_area, length_in_header};
ghost use Rattle.ao_shim.specs.Laying.{laid};
ghost use Rattle.book_base.specs.Algorithms.{mac_length_of};
ghost use Rattle.book_segments.specs.Bytes.{ring};
ghost use Rattle.book_segments.specs.Segments.{Segment, Read, reading, spell};
ghost use Rattle.book_macs.specs.Contexts.{bytes_of};
ghost use Rattle.book_macs.specs.Keys.{traffic_key};
ghost use Rattle.book_keys.specs.Rows.{Row};
ghost use Rattle.ao_kdf.specs.Cache.{kept, IsRight};
ghost use Rattle.ao_kdf.specs.declared.way.Way.TheVariants.{Outbound};
ghost use Rattle.ao_mac.specs.Macs.{IsMacOf};
ghost use Rattle.ao_check.specs.Bonds.{keys_after, steps_of};
ghost use Rattle.ao_shim.specs.Guards.{Written, is_single_use as book_is_single_use};
ghost use Rattle.ao_shim.specs.Plans.{IsReady, HasOne, HasKey, sealed_by};

use crate::kept_leaving::resets;
use crate::layout::{lay_out, relay_sent};
use crate::plan::{Plan, with_ao, zeros};
use ao_base::Steps;
use ao_check::mac_under;
use ao_kdf::KeyCache;
use ao_mac::MacBytes;
use book_shim::Kept;
use key_table::Table;
use std::sync::ledger::Ledger;
use tcp_segment::{AoFound, Counter, Datagram, Flag, read_datagram};

/// Whether the key of a datagram is used once and isn't kept: the datagram has SYN, or resets a late
/// connection.
fn is_single_use(kept: &Kept, datagram: &Datagram<'_>) -> bool
    ensures { result ≡ book_is_single_use kept.now datagram.now }
{
    datagram.has(Flag::Syn) || resets(kept, datagram)
}

/// The MAC of a datagram that is laid out, its MAC field zero.
fn code_of<L: Ledger>(
    keys: &mut KeyCache,
    table: &Table,
    plan: &Plan,
    laid: &[u8],
    once: bool,
    steps: &mut Steps<L>,
) -> MacBytes
    requires low { 1 ≤ plan.now.sending.row }
    requires high { plan.now.sending.row ≤ length table.now.rows }
    requires room { plan.now.sending.row ≤ keys.old.rows }
    requires laid { HasOne laid.now }
    requires kept { (r : Row) → slice_get table.now.rows (plan.now.sending.row - 1) ≡ Some r → once ≡ false
        → IsRight (kept keys.old plan.now.sending.row Outbound)
        (traffic_key r.algorithm r.master (bytes_of plan.now.context)) }
    ensures mac { (r : Row) (d : Segment) → slice_get table.now.rows (plan.now.sending.row - 1) ≡ Some r
        → reading laid.now ≡ Read d
        → IsMacOf result r.algorithm (traffic_key r.algorithm r.master (bytes_of plan.now.context))
        (plan.now.number / ring) d r.with_options }
    ensures length { (r : Row) → slice_get table.now.rows (plan.now.sending.row - 1) ≡ Some r
        → length result ≡ mac_length_of r.algorithm }
    ensures keys { (r : Row) → slice_get table.now.rows (plan.now.sending.row - 1) ≡ Some r
        → keys.new ≡ keys_after once keys.old plan.now.sending.row Outbound
        (traffic_key r.algorithm r.master (bytes_of plan.now.context)) }
    ensures kept { (r : Row) → slice_get table.now.rows (plan.now.sending.row - 1) ≡ Some r → once ≡ false
        → kept keys.new plan.now.sending.row Outbound
        ≡ Some (traffic_key r.algorithm r.master (bytes_of plan.now.context)) }
    ensures counted { steps.new ≡ steps.old + steps_of once (kept keys.old plan.now.sending.row Outbound) }
{
    let number = plan.sending.row;
    let extension = Counter::of(plan.number).extension;
    let datagram = match read_datagram(laid) {
        Ok(datagram) => datagram,
        Err(_) => unreachable!(),
    };
    let option = match datagram.options().find_ao() {
        AoFound::One(option) => option,
        AoFound::Absent => unreachable!(),
        AoFound::Two => unreachable!(),
        AoFound::WithMd5 => unreachable!(),
    };
    let row = table.row(number);
    mac_under(
        keys,
        number,
        row,
        &plan.context,
        extension,
        &datagram,
        option,
        once,
        steps,
    )
}

/// Lays a datagram out with these options, which are bytes.
fn lay_blank(out: &mut [u8], bytes: &[u8], datagram: &Datagram<'_>, area: &[u8]) -> usize
    requires read { reading bytes.now ≡ Read datagram.now }
    requires most { length area.now ≤ 40 }
    requires whole { length_in_header datagram.now.ip (with_area datagram.now area.now) ≤ 65535 }
    requires room { length (spell datagram.now) + length area.now ≤ length out.old + length datagram.now.area }
    ensures end { result ≡ length (spell (laid datagram.now area.now)) }
    ensures laid { out.new ≡ spell (laid datagram.now area.now) ++ drop result out.old }
    ensures bytes { AreBytes area.now }
{
    lay_out(out, bytes, datagram, area)
}

/// Seals a datagram by its plan: it is laid out with its MAC zero, and again with the MAC, as it is sent.
pub(crate) fn seal<L: Ledger>(
    keys: &mut KeyCache,
    table: &Table,
    plan: &Plan,
    bytes: &[u8],
    datagram: &Datagram<'_>,
    out: &mut [u8],
    steps: &mut Steps<L>,
) -> usize
    requires read { reading bytes.now ≡ Read datagram.now }
    requires ready { IsReady table.now.rows datagram.now plan.now }
    requires key { (r : Row) → slice_get table.now.rows (plan.now.sending.row - 1) ≡ Some r
        → HasKey keys.old datagram.now plan.now r }
    requires room { length bytes.now + 20 ≤ length out.old }
    ensures written { (r : IsReady table.now.rows datagram.now plan.now)
        → Written (spell (sealed_by datagram.now plan.now r.s)) out.old out.new result }
    ensures keys { (r : Row) → slice_get table.now.rows (plan.now.sending.row - 1) ≡ Some r
        → keys.new ≡ keys_after (book_is_single_use plan.now.kept datagram.now) keys.old plan.now.sending.row Outbound
        (traffic_key r.algorithm r.master (bytes_of plan.now.context)) }
    ensures kept { (r : Row) → slice_get table.now.rows (plan.now.sending.row - 1) ≡ Some r
        → book_is_single_use plan.now.kept datagram.now ≡ false
        → kept keys.new plan.now.sending.row Outbound
        ≡ Some (traffic_key r.algorithm r.master (bytes_of plan.now.context)) }
    ensures counted { steps.new ≡ steps.old + steps_of (book_is_single_use plan.now.kept datagram.now)
        (kept keys.old plan.now.sending.row Outbound) }
{
    let once = is_single_use(&plan.kept, datagram);
    let blank = with_ao(&plan.fitted, plan.sending, zeros(plan.mac_length));
    lay_blank(out, bytes, datagram, blank.as_slice());
    let code = code_of(keys, table, plan, out, once, steps);
    let whole = with_ao(&plan.fitted, plan.sending, code.as_slice());
    relay_sent(out, bytes, datagram, whole.as_slice())
}
