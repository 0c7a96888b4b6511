//! The segments that an end makes.
ghost use Rattle.std.specs.Prelude.{◌≡◌, ◌+◌, ◌≤◌, length};
ghost use Rattle.book_endpoint.specs.States.{EndState};
ghost use Rattle.book_endpoint.specs.Emissions as book;
ghost use Rattle.tcp_endpoint.specs.Ends.{Stands, FitsEnd, IsUnchanged, keys_kept, pair_at_end};
ghost use Rattle.tcp_endpoint.specs.Emissions.{Emits, EmitCosts, Resends, ResendCosts, MakesNone, ResendsNone};
ghost use Rattle.tcp_endpoint.specs.Emissions.{length_made, length_made_again};

use crate::emission::{Emission, Resent};
use crate::endpoint::Endpoint;
use ao_base::Steps;
use key_table::Table;
use std::sync::ledger::Ledger;

impl Endpoint {
    /// Makes the next segment, at `now` in seconds since 1970, in front of `out`, which has at least
    /// 1,500 bytes: RST, SYN, SYN with ACK, data within the peer's window, FIN, ACK (RFC 9293,
    /// section 3.10). It is sealed under the key of the current row, or of the sendable row with the
    /// greatest send start, which becomes current (RFC 5925, section 7.4); what stands behind the
    /// segment in `out` stays. `Idle` exactly where nothing is to be sent, `NoKey` exactly where
    /// something is and no row is sendable; after both nothing has changed, and no step is
    /// counted. For a segment at most one is: none without SYN where its key is kept, and no kept key
    /// is dropped.
    pub fn emit<L: Ledger>(
        &mut self,
        table: &Table,
        now: u64,
        out: &mut [u8],
        steps: &mut Steps<L>,
    ) -> Emission
        requires fits { FitsEnd table.now.rows self.old }
        requires room { 1500 ≤ length out.old }
        ensures emits { (s : EndState) → Stands self.old s
            → Emits s self.new out.old out.new result (book.emit table.now.rows (pair_at_end self.old) now s) }
        ensures costs { EmitCosts (keys_kept self.old) (keys_kept self.new) result steps.old steps.new }
        ensures short { length_made result ≤ 1500 }
        ensures unchanged { MakesNone result → IsUnchanged self.old self.new × (out.new ≡ out.old) }
        ensures pair { pair_at_end self.new ≡ pair_at_end self.old }
        ensures fits { FitsEnd table.now.rows self.new }
        ensures steps { steps.new ≤ steps.old + 1 }
    {
        let plan = match self.plan() {
            Some(plan) => plan,
            None => return Emission::Idle,
        };
        match self.association.choose(table, now) {
            Some(sending) => Emission::Segment(self.make(plan, table, &sending, out, steps)),
            None => Emission::NoKey,
        }
    }

    /// Makes a segment again: the SYN, what isn't acknowledged, or a probe of a window of zero (RFC
    /// 9293, sections 3.10.8 and 3.8.6.1). `Nothing` exactly where there is none of them. All else is
    /// as for `emit`.
    pub fn resend<L: Ledger>(
        &mut self,
        table: &Table,
        now: u64,
        out: &mut [u8],
        steps: &mut Steps<L>,
    ) -> Resent
        requires fits { FitsEnd table.now.rows self.old }
        requires room { 1500 ≤ length out.old }
        ensures resends { (s : EndState) → Stands self.old s
            → Resends s self.new out.old out.new result (book.resend table.now.rows (pair_at_end self.old) now s) }
        ensures costs { ResendCosts (keys_kept self.old) (keys_kept self.new) result steps.old steps.new }
        ensures short { length_made_again result ≤ 1500 }
        ensures unchanged { ResendsNone result → IsUnchanged self.old self.new × (out.new ≡ out.old) }
        ensures pair { pair_at_end self.new ≡ pair_at_end self.old }
        ensures fits { FitsEnd table.now.rows self.new }
        ensures steps { steps.new ≤ steps.old + 1 }
    {
        let plan = match self.plan_again() {
            Some(plan) => plan,
            None => return Resent::Nothing,
        };
        match self.association.choose(table, now) {
            Some(sending) => Resent::Segment(self.make(plan, table, &sending, out, steps)),
            None => Resent::NoKey,
        }
    }
}
