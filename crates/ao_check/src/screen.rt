//! What is judged of a segment before its MAC.
ghost use Rattle.std.specs.Prelude.{◌≡◌, ◌==◌, ◌≤◌, ◌<◌, ◌-◌, ◌^◌, ◌/◌, length, IfErr, IfOk, Ok, Err, Result};
ghost use Rattle.book_base.specs.Algorithms.{mac_length_of};
ghost use Rattle.book_segments.specs.Bytes.{same_bytes};
ghost use Rattle.book_segments.specs.Options.{One, find_ao};
ghost use Rattle.book_macs.specs.Keys.{key_length, mac};
ghost use Rattle.book_macs.specs.MacInput.{mac_input};
ghost use Rattle.book_endpoint.specs.Verdicts.{judge};
ghost use Rattle.tcp_segment.specs.Views.{view_ao, view_found};
ghost use Rattle.ao_check.specs.Contexts.{IsBelow};
ghost use Rattle.ao_check.specs.Verdicts.{Screens, Tells};

use crate::compare::is_same;
use crate::context::{context_of, ends_late, is_silent, number_of};
use ao_kdf::{Context, TrafficKey};
use ao_mac::mac_over;
use book_base::Pair;
use book_endpoint::Refusal;
use key_table::{Accept, Row, Table};
use tcp_segment::{AoFound, AoOption, Counter, Datagram};

/// What was found of a segment whose MAC is still to be judged.
#[derive(Drop)]
pub(crate) struct Screened<'a> {
    pub(crate) row: u8,
    pub(crate) number: u64,
    pub(crate) context: Context,
    pub(crate) option: AoOption<'a>,
}

/// What a segment has of TCP-AO.
fn found<'a>(datagram: &Datagram<'a>) -> AoFound<'a>
    ensures { view_found result ≡ find_ao datagram.now.area }
{
    datagram.options().find_ao()
}

/// Whether a MAC has the length of the row's algorithm.
fn has_length(mac: &[u8], row: &Row) -> bool
    ensures { result ≡ (length mac.now == mac_length_of row.now.algorithm) }
{
    mac.len() == row.algorithm().mac_length() as usize
}

/// The tests before that of the MAC, in their order: the first refusal that holds, or what the MAC
/// is judged by.
pub(crate) fn screen_segment<'a>(
    pair: &Pair,
    own_isn: u32,
    peer_isn: Option<u32>,
    table: &Table,
    now: u64,
    expected: Option<u64>,
    datagram: &Datagram<'a>,
) -> Result<Screened<'a>, Refusal>
    requires { IsBelow expected }
    ensures { Screens table.now.rows pair.now own_isn peer_isn now datagram.now result
        (judge table.now.rows pair.now (record { own_isn = own_isn; peer_isn = peer_isn; expected = expected }) now
        datagram.now) }
{
    let ao = match found(datagram) {
        AoFound::Absent => return Err(Refusal::NoAo),
        AoFound::Two => return Err(Refusal::TwoAo),
        AoFound::WithMd5 => return Err(Refusal::WithMd5),
        AoFound::One(ao) => ao,
    };
    let row = match table.accept_row(pair, ao.key_id, now) {
        Accept::Absent => return Err(Refusal::NoTuple),
        Accept::Expired => return Err(Refusal::Expired),
        Accept::Row(row) => row,
    };
    let entry = table.row(row);
    if !has_length(ao.mac, entry) {
        return Err(Refusal::MacLength);
    }
    let context = match context_of(datagram, peer_isn, Some(own_isn)) {
        None => return Err(Refusal::NoContext),
        Some(context) => context,
    };
    if is_silent(datagram, expected) {
        return Err(Refusal::NoContext);
    }
    let number = match number_of(datagram, expected) {
        None => return Err(Refusal::Range),
        Some(number) => number,
    };
    if ends_late(datagram, number) {
        return Err(Refusal::Range);
    }
    Ok(Screened {
        row,
        number,
        context,
        option: ao,
    })
}

/// Whether the MAC of a segment, in the option that was found, is right under a traffic key of the
/// row.
pub(crate) fn is_right(
    key: &TrafficKey,
    row: &Row,
    number: u64,
    datagram: &Datagram<'_>,
    ao: AoOption<'_>,
) -> bool
    requires found { find_ao datagram.now.area ≡ One (view_ao ao) }
    requires key { length key.now ≡ key_length row.now.algorithm }
    requires field { length ao.mac.now ≡ mac_length_of row.now.algorithm }
    requires number { number < 2 ^ 64 }
    ensures { result ≡ same_bytes ao.entry.mac.now
        (mac row.now.algorithm key.now (mac_input number datagram.now (view_ao ao.entry) row.now.with_options)) }
{
    let code = mac_over(
        key,
        row.algorithm(),
        Counter::of(number).extension,
        datagram,
        ao,
        row.with_options(),
    );
    is_same(ao.mac, code.as_slice())
}
