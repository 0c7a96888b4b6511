//! What a datagram of the own kernel is to be sealed with.
ghost use Rattle.std.specs.Prelude.{◌≡◌, ◌+◌, ◌≤◌, ◌^◌, ◌∷◌, ◌++◌, [], ℕ, true, List, ◌-◌, Some, length, replicate};
ghost use Rattle.std.specs.Prelude.{slice_get, IfOk, IfErr, Err};
ghost use Rattle.book_base.specs.Algorithms.{mac_length_of as mac_length_by};
ghost use Rattle.book_keys.specs.Rows.{Row};
ghost use Rattle.book_segments.specs.Segments.{Read, reading};
ghost use Rattle.book_shim.specs.Keeping.{is_keyed};
ghost use Rattle.book_shim.specs.Leaving.{send_sealed};
ghost use Rattle.ao_shim.specs.Plans.{IsPlanned, ao_after};

use crate::area::Area;
use crate::facts::{context_for, ends_in_time, is_signed, number_of};
use crate::kept_leaving::{entered, kept_for};
use crate::layout::length_told;
use crate::numbers::{own_isn, peer_isn};
use crate::rewrite::fitted;
use crate::rows::chosen;
use ao_check::Sending;
use ao_kdf::Context;
use book_base::Pair;
use book_shim::{Kept, Unsent};
use key_table::Table;
use tcp_segment::{AO_HEAD, AO_KIND, Datagram};

/// The most bytes of an option area (RFC 9293, section 3.1).
const MOST_OPTIONS: usize = 40;
/// The most bytes that an IP header can say (RFC 791, section 3.1; RFC 8200, section 3).
const MOST: usize = 65535;
/// A MAC before it is computed.
const ZEROS: [u8; 16] = [0; 16];

/// What a datagram is to be sealed with: what is kept then, the context of the traffic key, the number of
/// the first byte, the row of the key, the length of the MAC, and the options in front of TCP-AO.
#[derive(Drop)]
pub(crate) struct Plan {
    pub(crate) kept: Kept,
    pub(crate) context: Context,
    pub(crate) number: u64,
    pub(crate) sending: Sending,
    pub(crate) mac_length: u8,
    pub(crate) fitted: Area,
}

/// These options, and TCP-AO after them.
pub(crate) fn with_ao(fitted: &Area, sending: Sending, code: &[u8]) -> Area
    requires { length fitted.now + (4 + length code.now) ≤ 40 }
    ensures { result ≡ fitted.now ++ ao_after sending.key_id sending.rnext code.now }
{
    let head = [
        AO_KIND,
        AO_HEAD + code.len() as u8,
        sending.key_id,
        sending.rnext,
    ];
    let mut area = Area::empty();
    area.push(fitted.as_slice());
    area.push(&head);
    area.push(code);
    area
}

/// So many zeros.
pub(crate) fn zeros(count: u8) -> &'static [u8]
    requires { count ≤ 16 }
    ensures { result.now ≡ replicate count 0 }
{
    &ZEROS[..count as usize]
}

/// How long the MACs of a row are.
fn mac_length_of(table: &Table, row: u8) -> u8
    requires low { 1 ≤ row }
    requires high { row ≤ length table.now.rows }
    ensures { (r : Row) → slice_get table.now.rows (row - 1) ≡ Some r → result ≡ mac_length_by r.algorithm }
{
    table.row(row).algorithm().mac_length()
}

/// What a datagram of the own kernel is to be sealed with, or the first refusal that holds; some row is for
/// the pair.
pub(crate) fn planned(
    pair: &Pair,
    before: &Kept,
    table: &Table,
    now: u64,
    bytes: &[u8],
    datagram: &Datagram<'_>,
) -> Result<Plan, Unsent>
    requires read { reading bytes.now ≡ Read datagram.now }
    requires keyed { is_keyed table.now.rows pair.now ≡ true }
    requires sent { before.now.sent ≤ 2 ^ 63 }
    requires heard { before.now.heard ≤ 2 ^ 63 }
    ensures planned { IfOk result (λ p. IsPlanned table.now.rows now pair.now before.now datagram.now p) }
    ensures refused { IfErr result (λ why. (mtu : ℕ) → send_sealed
        (record { rows = table.now.rows; now = now; mtu = mtu }) pair.now before.now datagram.now ≡ Err why) }
{
    let options = datagram.options();
    if is_signed(&options) {
        return Err(Unsent::Signed);
    }
    let kept = entered(before, datagram);
    let under = kept_for(&kept, datagram);
    let context = match context_for(datagram, own_isn(&under), peer_isn(&under)) {
        None => return Err(Unsent::NoContext),
        Some(context) => context,
    };
    let number = match number_of(datagram, under.sent) {
        None => return Err(Unsent::Range),
        Some(number) => number,
    };
    if !ends_in_time(datagram, number) {
        return Err(Unsent::Range);
    }
    let sending = match chosen(kept.current, table, pair, now) {
        None => return Err(Unsent::NoKey),
        Some(sending) => sending,
    };
    let mac_length = mac_length_of(table, sending.row);
    let fitted = match fitted(&options, MOST_OPTIONS - (AO_HEAD + mac_length) as usize) {
        None => return Err(Unsent::NoRoom),
        Some(fitted) => fitted,
    };
    let blank = with_ao(&fitted, sending, zeros(mac_length));
    if length_told(bytes, datagram, blank.as_slice()) > MOST {
        return Err(Unsent::TooLong);
    }
    Ok(Plan {
        kept,
        context,
        number,
        sending,
        mac_length,
        fitted,
    })
}
