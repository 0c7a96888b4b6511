//! What is held of one pair.
ghost use Rattle.std.specs.Prelude.{◌≡◌, ◌+◌, ◌≤◌, ℕ, length, Err, IfOk, IfErr, OnErr};
ghost use Rattle.book_shim.specs.Leaving.{outbound};
ghost use Rattle.book_shim.specs.Arriving.{inbound};
ghost use Rattle.ao_shim.specs.Guards.{Suits, Sent, Taken};
ghost use Rattle.shim_pairs.specs.Passing.{Tells, setting};

use crate::answer::Passed;
use crate::changes::is_to_save;
use ao_base::Steps;
use ao_shim::Guard;
use book_shim::{Unsent, Untaken};
use key_table::Table;
use std::sync::ledger::Ledger;

/// What is held of a pair: its guard, and when something of it passed last, in seconds since 1970.
#[derive(Drop)]
pub struct Entry {
    pub(crate) guard: Guard,
    pub(crate) last: u64,
}

impl Entry {
    /// Seals a datagram of the own kernel.
    pub(crate) fn seal<L: Ledger>(
        &mut self,
        table: &Table,
        now: u64,
        bytes: &[u8],
        out: &mut [u8],
        steps: &mut Steps<L>,
    ) -> Result<Passed, Unsent>
        requires suits { Suits table.now.rows self.old.guard }
        requires room { length bytes.now + 20 ≤ length out.old }
        ensures sent { IfOk result (λ p. (mtu : ℕ) → Sent (setting table.now.rows now mtu) self.old.guard.pair
            self.old.guard.kept self.new.guard.kept bytes.now out.old out.new p.length) }
        ensures told { IfOk result (λ p. Tells now self.old.guard.kept self.new p) }
        ensures refused { IfErr result (λ why. (mtu : ℕ) → outbound (setting table.now.rows now mtu) self.old.guard.pair
            self.old.guard.kept bytes.now ≡ Err why) }
        ensures unchanged { OnErr result ((self.new ≡ self.old) × (out.new ≡ out.old)) }
        ensures pair { self.new.guard.pair ≡ self.old.guard.pair }
        ensures suits { Suits table.now.rows self.new.guard }
        ensures rows { self.new.guard.keys.rows ≡ self.old.guard.keys.rows }
        ensures most { steps.new ≤ steps.old + 1 }
    {
        let before = self.guard.kept();
        let length = self.guard.outbound(table, now, bytes, out, steps)?;
        let after = self.guard.kept();
        self.last = now;
        let changed = is_to_save(&before, &after);
        Ok(Passed { length, changed })
    }

    /// Opens a datagram from the network.
    pub(crate) fn open<L: Ledger>(
        &mut self,
        table: &Table,
        mtu: u16,
        now: u64,
        bytes: &[u8],
        out: &mut [u8],
        steps: &mut Steps<L>,
    ) -> Result<Passed, Untaken>
        requires suits { Suits table.now.rows self.old.guard }
        requires room { length bytes.now ≤ length out.old }
        ensures taken { IfOk result (λ p. Taken (setting table.now.rows now mtu) self.old.guard.pair
            self.old.guard.kept self.new.guard.kept bytes.now out.old out.new p.length) }
        ensures told { IfOk result (λ p. Tells now self.old.guard.kept self.new p) }
        ensures refused { IfErr result (λ why. inbound (setting table.now.rows now mtu) self.old.guard.pair
            self.old.guard.kept bytes.now ≡ Err why) }
        ensures unchanged { OnErr result ((self.new.guard.kept ≡ self.old.guard.kept)
            × (self.new.last ≡ self.old.last)) }
        ensures out { OnErr result (out.new ≡ out.old) }
        ensures pair { self.new.guard.pair ≡ self.old.guard.pair }
        ensures suits { Suits table.now.rows self.new.guard }
        ensures rows { self.new.guard.keys.rows ≡ self.old.guard.keys.rows }
        ensures most { steps.new ≤ steps.old + 1 }
    {
        let before = self.guard.kept();
        let length = self.guard.inbound(table, mtu, now, bytes, out, steps)?;
        let after = self.guard.kept();
        self.last = now;
        let changed = is_to_save(&before, &after);
        Ok(Passed { length, changed })
    }
}
