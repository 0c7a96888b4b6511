//! A datagram of the own kernel.
ghost use Rattle.std.specs.Prelude.{◌≡◌, ◌+◌, ◌≤◌, ℕ, Err, length, IfOk, IfErr, OnErr};
ghost use Rattle.book_shim.specs.Keeping.{fresh};
ghost use Rattle.book_shim.specs.Leaving.{outbound};
ghost use Rattle.shim_pairs.specs.Passing.{Begins, IsUnsent, Leaves, setting};

use crate::answer::{PairUnsent, Passed};
use crate::changes::is_to_save;
use crate::pairs::Pairs;
use crate::put::put;
use ao_base::Steps;
use ao_shim::Guard;
use book_base::Pair;
use book_shim::Unsent;
use key_table::Table;
use std::sync::ledger::Ledger;
use tcp_segment::read_datagram;

/// Seals a datagram of a pair of which nothing is held, by the guard at hand.
fn seal_first<L: Ledger>(
    hand: &mut Guard,
    pair: &Pair,
    table: &Table,
    now: u64,
    bytes: &[u8],
    out: &mut [u8],
    steps: &mut Steps<L>,
) -> Result<Passed, Unsent>
    requires rows { length table.now.rows ≤ hand.old.keys.rows }
    requires room { length bytes.now + 20 ≤ length out.old }
    ensures sent { IfOk result (λ p. Begins table.now.rows pair.now now hand.new bytes.now out.old out.new p) }
    ensures refused { IfErr result (λ why. (mtu : ℕ) → outbound (setting table.now.rows now mtu) pair.now fresh
        bytes.now ≡ Err why) }
    ensures out { OnErr result (out.new ≡ out.old) }
    ensures rows { hand.new.keys.rows ≡ hand.old.keys.rows }
    ensures most { steps.new ≤ steps.old + 1 }
{
    hand.begin(*pair);
    let before = hand.kept();
    match hand.outbound(table, now, bytes, out, steps) {
        Err(why) => Err(why),
        Ok(length) => {
            let after = hand.kept();
            let changed = is_to_save(&before, &after);
            Ok(Passed { length, changed })
        }
    }
}

impl Pairs {
    /// Seals a datagram of the own kernel, whose bytes are in another buffer than `out`.
    pub(crate) fn outbound<L: Ledger>(
        &mut self,
        now: u64,
        bytes: &[u8],
        out: &mut [u8],
        steps: &mut Steps<L>,
    ) -> Result<Passed, PairUnsent>
        requires room { length bytes.now + 20 ≤ length out.old }
        ensures sent { IfOk result (λ p. Leaves now self.old self.new bytes.now out.old out.new p) }
        ensures refused { IfErr result (λ why. IsUnsent self.old now bytes.now why) }
        ensures unchanged { OnErr result (self.new ≡ self.old) }
        ensures out { OnErr result (out.new ≡ out.old) }
        ensures most { steps.new ≤ steps.old + 1 }
    {
        let datagram = match read_datagram(bytes) {
            Err(fault) => return Err(PairUnsent::Unsent(Unsent::Bad(fault))),
            Ok(datagram) => datagram,
        };
        let pair = Pair {
            local: datagram.source(),
            remote: datagram.destination(),
        };
        let table = match self.tables.table(&pair.local.address) {
            None => return Err(PairUnsent::NoNode),
            Some(table) => table,
        };
        match self.entries.get_mut(&pair) {
            None => match seal_first(&mut self.hand, &pair, table, now, bytes, out, steps) {
                Err(why) => Err(PairUnsent::Unsent(why)),
                Ok(passed) => {
                    put(
                        &mut self.entries,
                        &mut self.spares,
                        &mut self.hand,
                        &pair,
                        now,
                    );
                    Ok(passed)
                }
            },
            Some(entry) => match entry.seal(table, now, bytes, out, steps) {
                Err(why) => Err(PairUnsent::Unsent(why)),
                Ok(passed) => Ok(passed),
            },
        }
    }
}
