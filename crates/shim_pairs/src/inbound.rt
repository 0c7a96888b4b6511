//! A datagram from the network.
ghost use Rattle.std.specs.Prelude.{◌≡◌, ◌+◌, ◌≤◌, Err, length, IfOk, IfErr, OnErr};
ghost use Rattle.book_shim.specs.Arriving.{inbound};
ghost use Rattle.book_shim.specs.Keeping.{fresh};
ghost use Rattle.shim_pairs.specs.Passing.{Enters, IsUntaken, Stays, TakenFresh, setting};

use crate::answer::{PairUntaken, Passed};
use crate::pairs::Pairs;
use ao_base::Steps;
use ao_shim::Guard;
use book_base::Pair;
use book_shim::Untaken;
use key_table::Table;
use std::sync::ledger::Ledger;
use tcp_segment::read_datagram;

/// Opens a datagram of a pair of which nothing is held, by the guard at hand: a SYN at most passes, and
/// nothing is kept.
fn open_unknown<L: Ledger>(
    hand: &mut Guard,
    pair: &Pair,
    table: &Table,
    mtu: u16,
    now: u64,
    bytes: &[u8],
    out: &mut [u8],
    steps: &mut Steps<L>,
) -> Result<Passed, Untaken>
    requires rows { length table.now.rows ≤ hand.old.keys.rows }
    requires room { length bytes.now ≤ length out.old }
    ensures taken { IfOk result (λ p. TakenFresh table.now.rows pair.now now mtu bytes.now out.old out.new p) }
    ensures refused { IfErr result (λ why. inbound (setting table.now.rows now mtu) pair.now fresh bytes.now
        ≡ Err why) }
    ensures out { OnErr result (out.new ≡ out.old) }
    ensures rows { hand.new.keys.rows ≡ hand.old.keys.rows }
    ensures most { steps.new ≤ steps.old + 1 }
{
    hand.begin(*pair);
    match hand.inbound(table, mtu, now, bytes, out, steps) {
        Err(why) => Err(why),
        Ok(length) => Ok(Passed {
            length,
            changed: false,
        }),
    }
}

impl Pairs {
    /// Opens a datagram from the network, whose bytes are in another buffer than `out`.
    pub(crate) fn inbound<L: Ledger>(
        &mut self,
        mtu: u16,
        now: u64,
        bytes: &[u8],
        out: &mut [u8],
        steps: &mut Steps<L>,
    ) -> Result<Passed, PairUntaken>
        requires room { length bytes.now ≤ length out.old }
        ensures taken { IfOk result (λ p. Enters now mtu self.old self.new bytes.now out.old out.new p) }
        ensures refused { IfErr result (λ why. IsUntaken self.old now mtu bytes.now why) }
        ensures stays { OnErr result (Stays self.old self.new) }
        ensures out { OnErr result (out.new ≡ out.old) }
        ensures most { steps.new ≤ steps.old + 1 }
    {
        let datagram = match read_datagram(bytes) {
            Err(fault) => return Err(PairUntaken::Untaken(Untaken::Bad(fault))),
            Ok(datagram) => datagram,
        };
        let pair = Pair {
            local: datagram.destination(),
            remote: datagram.source(),
        };
        let table = match self.tables.table(&pair.local.address) {
            None => return Err(PairUntaken::NoNode),
            Some(table) => table,
        };
        match self.entries.get_mut(&pair) {
            None => {
                match open_unknown(&mut self.hand, &pair, table, mtu, now, bytes, out, steps) {
                    Err(why) => Err(PairUntaken::Untaken(why)),
                    Ok(passed) => Ok(passed),
                }
            }
            Some(entry) => match entry.open(table, mtu, now, bytes, out, steps) {
                Err(why) => Err(PairUntaken::Untaken(why)),
                Ok(passed) => Ok(passed),
            },
        }
    }
}
