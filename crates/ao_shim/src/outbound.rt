//! A datagram of the own kernel.
ghost use Rattle.std.specs.Prelude.{◌≡◌, ◌+◌, ◌≤◌, ℕ, length, Ok, Err, IfOk, IfErr, OnErr};
ghost use Rattle.book_shim.specs.Leaving.{Sealed, outbound};
ghost use Rattle.ao_shim.specs.Guards.{Suits, Sent, sealing_steps};

use crate::guard::Guard;
use crate::leaving::sealed;
use ao_base::Steps;
use book_shim::Unsent;
use key_table::Table;
use std::sync::ledger::Ledger;

impl Guard {
    /// Seals a datagram of the own kernel under the key of the row to send with (RFC 5925, section 7.4):
    /// what is sent in its place stands in front of `out`, what is behind it stays, and its length is
    /// given; else the first refusal that holds, and then nothing is changed.
    ///
    /// The table suits the guard, and `out` has 20 bytes more than the datagram. At most one traffic key
    /// is derived: one for a SYN and for the RST that answers a late SYN with ACK, and for any other segment
    /// none where its key is kept.
    pub fn outbound<L: Ledger>(
        &mut self,
        table: &Table,
        now: u64,
        bytes: &[u8],
        out: &mut [u8],
        steps: &mut Steps<L>,
    ) -> Result<usize, Unsent>
        requires suits { Suits table.now.rows self.old }
        requires room { length bytes.now + 20 ≤ length out.old }
        ensures sent { IfOk result (λ n. (mtu : ℕ) → Sent (record { rows = table.now.rows; now = now; mtu = mtu })
            self.old.pair self.old.kept self.new.kept bytes.now out.old out.new n) }
        ensures refused { IfErr result (λ why. (mtu : ℕ) → outbound
            (record { rows = table.now.rows; now = now; mtu = mtu }) self.old.pair self.old.kept bytes.now ≡ Err why) }
        ensures unchanged { OnErr result ((self.new ≡ self.old) × (out.new ≡ out.old) × (steps.new ≡ steps.old)) }
        ensures pair { self.new.pair ≡ self.old.pair }
        ensures suits { Suits table.now.rows self.new }
        ensures rows { self.new.keys.rows ≡ self.old.keys.rows }
        ensures counted { (mtu : ℕ) (m : Sealed) → outbound (record { rows = table.now.rows; now = now; mtu = mtu })
            self.old.pair self.old.kept bytes.now ≡ Ok m
            → steps.new ≡ steps.old + sealing_steps self.old.kept self.old.keys m }
        ensures most { steps.new ≤ steps.old + 1 }
    {
        let pair = self.pair;
        let before = self.kept;
        match sealed(
            &mut self.keys,
            &pair,
            &before,
            table,
            now,
            bytes,
            out,
            steps,
        ) {
            Err(why) => Err(why),
            Ok((end, kept)) => {
                self.kept = kept;
                Ok(end)
            }
        }
    }
}
