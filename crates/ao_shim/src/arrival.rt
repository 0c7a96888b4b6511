//! What is asked of a datagram from the peer, and what is kept once it passed.
ghost use Rattle.std.specs.Prelude.{◌≡◌, ◌+◌, ◌≤◌, ◌^◌, ℕ, Bool, true, false, None, IfErr, IfOk};
ghost use Rattle.book_segments.specs.Options.{One, find_ao};
ghost use Rattle.book_segments.specs.Segments.{Read, reading, has, SYN};
ghost use Rattle.book_shim.specs.Arriving.{judged_arrival, past_heard, admitted};
ghost use Rattle.book_shim.specs.Relaying as relaying;
ghost use Rattle.ao_kdf.specs.declared.way.Way.TheVariants.{Inbound};
ghost use Rattle.ao_check.specs.Bonds.{Counted};
ghost use Rattle.ao_check.specs.Verdicts.{Tells, judging, verdict_of};
ghost use Rattle.tcp_segment.specs.Views.{view_ao};
ghost use Rattle.ao_shim.specs.Guards.{Suits};
ghost use Rattle.ao_shim.specs.Arrivals.{row_heard};

use crate::kept_arriving::{admitted, is_awaited, may_be_replayed, past_heard};
use crate::layout::least_headers;
use crate::numbers::answered_isn;
use crate::rows::followed;
use ao_base::Steps;
use ao_check::{Passing, check_syn, check_under};
use ao_kdf::KeyCache;
use book_base::Pair;
use book_endpoint::Refusal;
use book_shim::Kept;
use key_table::Table;
use std::sync::ledger::Ledger;
use tcp_segment::{Datagram, Flag};

/// The verdict on a segment with SYN from the peer.
fn judged_syn<'a, L: Ledger>(
    pair: &Pair,
    kept: &Kept,
    table: &Table,
    now: u64,
    datagram: &Datagram<'a>,
    steps: &mut Steps<L>,
) -> Result<Passing<'a>, Refusal>
    requires syn { has SYN datagram.now ≡ true }
    requires source { datagram.now.source ≡ pair.now.remote }
    requires destination { datagram.now.destination ≡ pair.now.local }
    ensures verdict { (mtu : ℕ) → Tells table.now.rows pair.now datagram.now (verdict_of result)
        (judged_arrival (record { rows = table.now.rows; now = now; mtu = mtu }) pair.now kept.now datagram.now) }
    ensures option { IfOk result (λ p. find_ao datagram.now.area ≡ One (view_ao p.option)) }
    ensures most { steps.new ≤ steps.old + 1 }
{
    if datagram.has(Flag::Ack) {
        if !is_awaited(kept, datagram) {
            return Err(Refusal::NoContext);
        }
    }
    check_syn(pair, answered_isn(datagram), table, now, datagram, steps)
}

/// The verdict on a segment without SYN from the peer.
fn judged_later<'a, L: Ledger>(
    keys: &mut KeyCache,
    pair: &Pair,
    kept: &Kept,
    table: &Table,
    now: u64,
    datagram: &Datagram<'a>,
    steps: &mut Steps<L>,
) -> Result<Passing<'a>, Refusal>
    requires suits { Suits table.now.rows (record { pair = pair.now; kept = kept.now; keys = keys.old }) }
    requires heard { kept.now.heard ≤ 2 ^ 63 }
    requires syn { has SYN datagram.now ≡ false }
    requires source { datagram.now.source ≡ pair.now.remote }
    requires destination { datagram.now.destination ≡ pair.now.local }
    ensures verdict { (mtu : ℕ) → Tells table.now.rows pair.now datagram.now (verdict_of result)
        (judged_arrival (record { rows = table.now.rows; now = now; mtu = mtu }) pair.now kept.now datagram.now) }
    ensures option { IfOk result (λ p. find_ao datagram.now.area ≡ One (view_ao p.option)) }
    ensures suits { Suits table.now.rows (record { pair = pair.now; kept = kept.now; keys = keys.new }) }
    ensures rows { keys.new.rows ≡ keys.old.rows }
    ensures counted { (b : Bool)
        × Counted keys.old keys.new (judging table.now.rows pair.now now (find_ao datagram.now.area)) b Inbound false
        steps.old steps.new }
{
    match kept.isns {
        None => check_under(keys, pair, 0, None, table, now, None, datagram, steps),
        Some(isns) => check_under(
            keys,
            pair,
            isns.own,
            Some(isns.peer),
            table,
            now,
            Some(kept.heard),
            datagram,
            steps,
        ),
    }
}

/// The verdict on a segment from the peer.
pub(crate) fn judged<'a, L: Ledger>(
    keys: &mut KeyCache,
    pair: &Pair,
    kept: &Kept,
    table: &Table,
    now: u64,
    datagram: &Datagram<'a>,
    steps: &mut Steps<L>,
) -> Result<Passing<'a>, Refusal>
    requires suits { Suits table.now.rows (record { pair = pair.now; kept = kept.now; keys = keys.old }) }
    requires heard { kept.now.heard ≤ 2 ^ 63 }
    requires source { datagram.now.source ≡ pair.now.remote }
    requires destination { datagram.now.destination ≡ pair.now.local }
    ensures verdict { (mtu : ℕ) → Tells table.now.rows pair.now datagram.now (verdict_of result)
        (judged_arrival (record { rows = table.now.rows; now = now; mtu = mtu }) pair.now kept.now datagram.now) }
    ensures option { IfOk result (λ p. find_ao datagram.now.area ≡ One (view_ao p.option)) }
    ensures suits { Suits table.now.rows (record { pair = pair.now; kept = kept.now; keys = keys.new }) }
    ensures rows { keys.new.rows ≡ keys.old.rows }
    ensures most { steps.new ≤ steps.old + 1 }
    ensures counted { has SYN datagram.now ≡ false
        → (b : Bool) × Counted keys.old keys.new (judging table.now.rows pair.now now (find_ao datagram.now.area)) b
        Inbound false steps.old steps.new }
{
    if datagram.has(Flag::Syn) {
        judged_syn(pair, kept, table, now, datagram, steps)
    } else {
        judged_later(keys, pair, kept, table, now, datagram, steps)
    }
}

/// What is kept once a segment of this number passed, which asks for this key identifier.
pub(crate) fn heard(
    pair: &Pair,
    before: &Kept,
    table: &Table,
    now: u64,
    datagram: &Datagram<'_>,
    number: u64,
    rnext: u8,
) -> Kept
    requires { number ≤ 2 ^ 63 }
    ensures { result
        ≡ record (past_heard (admitted before.now datagram.now) datagram.now number) {
          current = row_heard table.now.rows pair.now now before.now datagram.now number rnext;
        } }
{
    let joined = admitted(before, datagram);
    let heard = past_heard(&joined, datagram, number);
    Kept {
        current: row_after(pair, before, table, now, datagram, number, rnext),
        ..heard
    }
}

/// The current row once a segment of this number passed, which asks for this key identifier: that of a
/// RST isn't followed, nor that of what may be a replay.
fn row_after(
    pair: &Pair,
    before: &Kept,
    table: &Table,
    now: u64,
    datagram: &Datagram<'_>,
    number: u64,
    rnext: u8,
) -> Option<u8>
    requires { number ≤ 2 ^ 63 }
    ensures { result ≡ row_heard table.now.rows pair.now now before.now datagram.now number rnext }
{
    if datagram.has(Flag::Rst) || may_be_replayed(before, datagram, number) {
        before.current
    } else {
        followed(before.current, table, pair, rnext, now)
    }
}

/// The greatest maximum segment size that a segment may tell, where it may tell one.
pub(crate) fn most_mss(mtu: u16, bytes: &[u8], datagram: &Datagram<'_>) -> Option<u16>
    requires { reading bytes.now ≡ Read datagram.now }
    ensures { result ≡ relaying.most_mss mtu datagram.now }
{
    if datagram.has(Flag::Syn) {
        Some(mtu.saturating_sub(least_headers(bytes, datagram)))
    } else {
        None
    }
}
