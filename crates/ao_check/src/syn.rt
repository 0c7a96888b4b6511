//! The check of a SYN from a peer of which nothing is kept.
ghost use Rattle.std.specs.Prelude.{◌≡◌, ◌+◌, ◌≤◌, true, length, None, IfErr, IfOk};
ghost use Rattle.book_segments.specs.Options.{One, find_ao};
ghost use Rattle.book_segments.specs.Segments.{has, SYN};
ghost use Rattle.book_macs.specs.Contexts.{bytes_of};
ghost use Rattle.book_macs.specs.Keys.{key_length, traffic_key};
ghost use Rattle.book_endpoint.specs.Verdicts.{judge};
ghost use Rattle.tcp_segment.specs.Views.{view_ao};
ghost use Rattle.ao_check.specs.Verdicts.{Tells, verdict_of};

use crate::passing::Passing;
use crate::screen::{is_right, screen_segment};
use ao_base::Steps;
use ao_kdf::{Context, TrafficKey, traffic_key};
use book_base::Pair;
use book_endpoint::{Passed, Refusal};
use key_table::{Row, Table};
use std::sync::ledger::Ledger;
use tcp_segment::Datagram;

/// The traffic key of a row for a context.
fn derived<L: Ledger>(row: &Row, context: &Context, steps: &mut Steps<L>) -> TrafficKey
    ensures key { result ≡ traffic_key row.now.algorithm row.now.master (bytes_of context.now) }
    ensures length { length result ≡ key_length row.now.algorithm }
    ensures counted { steps.new ≡ steps.old + 1 }
{
    traffic_key(row.algorithm(), row.master(), context, steps)
}

/// A SYN from the peer that passes the check, with the TCP-AO option that was found in it, or else the first
/// refusal that holds (RFC 5925, section 7.5). Nothing need be kept of its connection: its context is in it, with
/// ACK together with the own initial sequence number that it answers (RFC 5925, section 5.2). Its traffic key isn't
/// kept: at most one step is counted.
pub fn check_syn<'a, L: Ledger>(
    pair: &Pair,
    own_isn: u32,
    table: &Table,
    now: u64,
    datagram: &Datagram<'a>,
    steps: &mut Steps<L>,
) -> Result<Passing<'a>, Refusal>
    requires syn { has SYN datagram.now ≡ true }
    requires source { datagram.now.source ≡ pair.now.remote }
    requires destination { datagram.now.destination ≡ pair.now.local }
    ensures verdict { Tells table.now.rows pair.now datagram.now (verdict_of result)
        (judge table.now.rows pair.now (record { own_isn = own_isn; peer_isn = None; expected = None }) now
        datagram.now) }
    ensures option { IfOk result (λ p. find_ao datagram.now.area ≡ One (view_ao p.option)) }
    ensures most { steps.new ≤ steps.old + 1 }
{
    let seen = match screen_segment(pair, own_isn, None, table, now, None, datagram) {
        Err(why) => return Err(why),
        Ok(seen) => seen,
    };
    let row = table.row(seen.row);
    let key = derived(row, &seen.context, steps);
    if !is_right(&key, row, seen.number, datagram, seen.option) {
        return Err(Refusal::BadMac);
    }
    Ok(Passing {
        passed: Passed {
            row: seen.row,
            number: seen.number,
            context: seen.context,
        },
        option: seen.option,
    })
}
