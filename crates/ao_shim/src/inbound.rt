//! A datagram from the peer.
ghost use Rattle.std.specs.Prelude.{◌≡◌, ◌+◌, ◌≤◌, Bool, false, length, Err, IfOk, IfErr, OnErr};
ghost use Rattle.book_segments.specs.Options.{find_ao};
ghost use Rattle.book_segments.specs.Segments.{Segment, Read, reading, has, SYN};
ghost use Rattle.book_shim.specs.Arriving.{inbound};
ghost use Rattle.ao_kdf.specs.declared.way.Way.TheVariants.{Inbound};
ghost use Rattle.ao_check.specs.Bonds.{Counted};
ghost use Rattle.ao_check.specs.Verdicts.{judging};
ghost use Rattle.ao_shim.specs.Guards.{Suits, Taken};

use crate::arriving::opened;
use crate::guard::Guard;
use ao_base::Steps;
use book_shim::Untaken;
use key_table::Table;
use std::sync::ledger::Ledger;

impl Guard {
    /// Opens a datagram from the peer, which must pass the check (RFC 5925, section 7.5): what the own
    /// kernel takes in its place, without TCP-AO, stands in front of `out`, what is behind it stays, and
    /// its length is given; else the first refusal that holds, and then nothing is changed but the
    /// traffic keys that are kept. A SYN tells at most the maximum segment size that the `mtu` of the
    /// own device leaves.
    ///
    /// The table suits the guard, and `out` has as many bytes as the datagram. At most one traffic key is
    /// derived, and none where the key of a segment without SYN is kept.
    pub fn inbound<L: Ledger>(
        &mut self,
        table: &Table,
        mtu: u16,
        now: u64,
        bytes: &[u8],
        out: &mut [u8],
        steps: &mut Steps<L>,
    ) -> Result<usize, Untaken>
        requires suits { Suits table.now.rows self.old }
        requires room { length bytes.now ≤ length out.old }
        ensures taken { IfOk result (λ n. Taken (record { rows = table.now.rows; now = now; mtu = mtu }) self.old.pair
            self.old.kept self.new.kept bytes.now out.old out.new n) }
        ensures refused { IfErr result (λ why. inbound (record { rows = table.now.rows; now = now; mtu = mtu })
            self.old.pair self.old.kept bytes.now ≡ Err why) }
        ensures unchanged { OnErr result ((self.new.kept ≡ self.old.kept) × (out.new ≡ out.old)) }
        ensures pair { self.new.pair ≡ self.old.pair }
        ensures suits { Suits table.now.rows self.new }
        ensures rows { self.new.keys.rows ≡ self.old.keys.rows }
        ensures counted { (d : Segment) → reading bytes.now ≡ Read d → has SYN d ≡ false
            → (b : Bool) × Counted self.old.keys self.new.keys
            (judging table.now.rows self.old.pair now (find_ao d.area)) b Inbound false steps.old steps.new }
        ensures most { steps.new ≤ steps.old + 1 }
    {
        let pair = self.pair;
        let before = self.kept;
        match opened(
            &mut self.keys,
            &pair,
            &before,
            table,
            mtu,
            now,
            bytes,
            out,
            steps,
        ) {
            Err(why) => Err(why),
            Ok((end, kept)) => {
                self.kept = kept;
                Ok(end)
            }
        }
    }
}
