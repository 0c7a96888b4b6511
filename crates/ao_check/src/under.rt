//! The check of a segment and the MAC of another, with keys that the caller keeps.
ghost use Rattle.std.specs.Prelude.{◌≡◌, ◌+◌, ◌≤◌, false, length, Option, Some, None, IfErr, IfOk};
ghost use Rattle.book_base.specs.Algorithms.{mac_length_of};
ghost use Rattle.book_segments.specs.Options.{One, find_ao};
ghost use Rattle.book_segments.specs.Segments.{has, SYN};
ghost use Rattle.book_macs.specs.Contexts.{bytes_of};
ghost use Rattle.book_macs.specs.Keys.{traffic_key};
ghost use Rattle.book_endpoint.specs.Verdicts.{judge};
ghost use Rattle.ao_kdf.specs.Cache.{kept, IsRight};
ghost use Rattle.ao_kdf.specs.declared.way.Way.TheVariants.{Inbound, Outbound};
ghost use Rattle.ao_mac.specs.Macs.{IsMacOf};
ghost use Rattle.tcp_segment.specs.Views.{view_ao};
ghost use Rattle.ao_check.specs.Bonds.{Fits, Counted, keys_after, steps_of};
ghost use Rattle.ao_check.specs.Verdicts.{IsExpected, Tells, is_judged, judging, verdict_of};

use crate::key::has_right_mac;
use crate::passing::Passing;
use crate::screen::screen_segment;
use ao_base::Steps;
use ao_kdf::{Context, KeyCache, Way, traffic_key};
use ao_mac::{MacBytes, mac_over};
use book_base::Pair;
use book_endpoint::{Passed, Refusal};
use key_table::{Row, Table};
use std::sync::ledger::Ledger;
use tcp_segment::{AoOption, Datagram};

/// A segment from the peer that passes the check, with the TCP-AO option that was found in it, or
/// else the first refusal that holds (RFC 5925, section 7.5), by initial sequence numbers and kept
/// keys of the caller's. All else is as for `Association::check`.
pub fn check_under<'a, L: Ledger>(
    keys: &mut KeyCache,
    pair: &Pair,
    own_isn: u32,
    peer_isn: Option<u32>,
    table: &Table,
    now: u64,
    expected: Option<u64>,
    datagram: &Datagram<'a>,
    steps: &mut Steps<L>,
) -> Result<Passing<'a>, Refusal>
    requires fits { Fits table.now.rows
        (record { pair = pair.now; own = own_isn; peer = peer_isn; current = None; keys = keys.old }) }
    requires source { datagram.now.source ≡ pair.now.remote }
    requires destination { datagram.now.destination ≡ pair.now.local }
    requires expected { IsExpected peer_isn expected }
    ensures verdict { Tells table.now.rows pair.now datagram.now (verdict_of result)
        (judge table.now.rows pair.now (record { own_isn = own_isn; peer_isn = peer_isn; expected = expected }) now
        datagram.now) }
    ensures option { IfOk result (λ p. find_ao datagram.now.area ≡ One (view_ao p.option)) }
    ensures fits { Fits table.now.rows
        (record { pair = pair.now; own = own_isn; peer = peer_isn; current = None; keys = keys.new }) }
    ensures counted { Counted keys.old keys.new (judging table.now.rows pair.now now (find_ao datagram.now.area))
        (is_judged (verdict_of result)) Inbound (has SYN datagram.now) steps.old steps.new }
{
    let seen = match screen_segment(pair, own_isn, peer_isn, table, now, expected, datagram) {
        Err(why) => return Err(why),
        Ok(seen) => seen,
    };
    let row = table.row(seen.row);
    if !has_right_mac(keys, row, &seen, datagram, steps) {
        return Err(Refusal::BadMac);
    }
    Ok(Passing {
        passed: Passed {
            row: seen.row,
            number: seen.number,
            context: seen.context,
        },
        option: seen.option,
    })
}

/// The MAC of a segment that is laid out, under the key of a row for this context (RFC 5925, section
/// 7.4). The key of a segment with SYN is derived; that of another segment is kept.
pub fn mac_under<L: Ledger>(
    keys: &mut KeyCache,
    number: u8,
    row: &Row,
    context: &Context,
    extension: u32,
    datagram: &Datagram<'_>,
    option: AoOption<'_>,
    syn: bool,
    steps: &mut Steps<L>,
) -> MacBytes
    requires low { 1 ≤ number }
    requires high { number ≤ keys.old.rows }
    requires kept { syn ≡ false → IsRight (kept keys.old number Outbound)
        (traffic_key row.now.algorithm row.now.master (bytes_of context.now)) }
    requires found { find_ao datagram.now.area ≡ One (view_ao option) }
    ensures mac { IsMacOf result row.now.algorithm (traffic_key row.now.algorithm row.now.master
        (bytes_of context.now)) extension datagram.now row.now.with_options }
    ensures length { length result ≡ mac_length_of row.now.algorithm }
    ensures keys { keys.new ≡ keys_after syn keys.old number Outbound
        (traffic_key row.now.algorithm row.now.master (bytes_of context.now)) }
    ensures kept { syn ≡ false → kept keys.new number Outbound
        ≡ Some (traffic_key row.now.algorithm row.now.master (bytes_of context.now)) }
    ensures counted { steps.new ≡ steps.old + steps_of syn (kept keys.old number Outbound) }
{
    let algorithm = row.algorithm();
    let with_options = row.with_options();
    if syn {
        let key = traffic_key(algorithm, row.master(), context, steps);
        return mac_over(&key, algorithm, extension, datagram, option, with_options);
    }
    keys.keep(
        number,
        Way::Outbound,
        algorithm,
        row.master(),
        context,
        steps,
    );
    match keys.kept(number, Way::Outbound) {
        Some(key) => mac_over(key, algorithm, extension, datagram, option, with_options),
        None => unreachable!(),
    }
}
