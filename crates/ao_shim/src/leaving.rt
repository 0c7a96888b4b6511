//! A datagram of the own kernel, by what is kept of its pair.
ghost use Rattle.std.specs.Prelude.{◌≡◌, ◌+◌, ◌≤◌, ℕ, List, length, Ok, Err, IfOk, IfErr, OnErr};
ghost use Rattle.book_base.specs.declared.address.Pair.{Pair as Sockets};
ghost use Rattle.book_keys.specs.Rows.{Row};
ghost use Rattle.book_shim.specs.Leaving.{Sealed, outbound};
ghost use Rattle.ao_shim.specs.Guards.{Suits, Sent, AreLow, sealing_steps};

use crate::kept_leaving::past_sent;
use crate::numbers::is_same_connection;
use crate::plan::planned;
use crate::rows::is_keyed;
use crate::seal::seal;
use ao_base::{Steps, is_same_socket};
use ao_kdf::KeyCache;
use book_base::Pair;
use book_shim::{Kept, Unsent};
use key_table::Table;
use std::sync::ledger::Ledger;
use tcp_segment::read_datagram;

/// Drops the keys where another connection is in use from now on.
#[tactic(auto, using(crate::proofs::KeptLaws::suits_other, crate::proofs::KeptLaws::suits_same))]
pub(crate) fn renew(keys: &mut KeyCache, before: &Kept, after: &Kept)
    ensures keys { before.now.isns ≡ after.now.isns → keys.new ≡ keys.old }
    ensures rows { keys.new.rows ≡ keys.old.rows }
    ensures suits { (table : List Row) (pair : Sockets) → Suits table
        (record { pair = pair; kept = before.now; keys = keys.old })
        → Suits table (record { pair = pair; kept = after.now; keys = keys.new }) }
{
    if !is_same_connection(before, after) {
        keys.forget();
    }
}

/// Seals a datagram of the own kernel, and gives its length and what is kept then.
pub(crate) fn sealed<L: Ledger>(
    keys: &mut KeyCache,
    pair: &Pair,
    before: &Kept,
    table: &Table,
    now: u64,
    bytes: &[u8],
    out: &mut [u8],
    steps: &mut Steps<L>,
) -> Result<(usize, Kept), Unsent>
    requires suits { Suits table.now.rows (record { pair = pair.now; kept = before.now; keys = keys.old }) }
    requires low { AreLow before.now }
    requires room { length bytes.now + 20 ≤ length out.old }
    ensures sent { IfOk result (λ r. (mtu : ℕ) → Sent (record { rows = table.now.rows; now = now; mtu = mtu }) pair.now
        before.now r.1 bytes.now out.old out.new r.0) }
    ensures low { IfOk result (λ r. AreLow r.1) }
    ensures suits { IfOk result (λ r. Suits table.now.rows (record { pair = pair.now; kept = r.1; keys = keys.new })) }
    ensures refused { IfErr result (λ why. (mtu : ℕ) → outbound
        (record { rows = table.now.rows; now = now; mtu = mtu }) pair.now before.now bytes.now ≡ Err why) }
    ensures unchanged { OnErr result ((keys.new ≡ keys.old) × (out.new ≡ out.old) × (steps.new ≡ steps.old)) }
    ensures counted { (mtu : ℕ) (m : Sealed) → outbound (record { rows = table.now.rows; now = now; mtu = mtu })
        pair.now before.now bytes.now ≡ Ok m
        → steps.new ≡ steps.old + sealing_steps before.now keys.old m }
    ensures most { steps.new ≤ steps.old + 1 }
    ensures rows { keys.new.rows ≡ keys.old.rows }
{
    let datagram = match read_datagram(bytes) {
        Err(fault) => return Err(Unsent::Bad(fault)),
        Ok(datagram) => datagram,
    };
    if !is_same_socket(&datagram.source(), &pair.local) {
        return Err(Unsent::Foreign);
    }
    if !is_same_socket(&datagram.destination(), &pair.remote) {
        return Err(Unsent::Foreign);
    }
    if !is_keyed(table, pair) {
        return Err(Unsent::Unkeyed);
    }
    let plan = match planned(pair, before, table, now, bytes, &datagram) {
        Err(why) => return Err(why),
        Ok(plan) => plan,
    };
    renew(keys, before, &plan.kept);
    let end = seal(keys, table, &plan, bytes, &datagram, out, steps);
    let sent = past_sent(&plan.kept, &datagram, plan.number);
    let kept = Kept {
        current: Some(plan.sending.row),
        ..sent
    };
    Ok((end, kept))
}
