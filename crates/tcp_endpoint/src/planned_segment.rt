//! One planned segment, made.
ghost use Rattle.std.specs.Prelude.{◌≡◌, ◌-◌, ◌+◌, ◌≤◌, ◌%◌, length, Some, None, slice_get, if◌then◌else◌};
ghost use Rattle.book_segments.specs.Bytes.{ring};
ghost use Rattle.book_keys.specs.Coordination.{Sending as Chosen};
ghost use Rattle.ao_check.specs.Sendings.{told};
ghost use Rattle.book_endpoint.specs.States.{EndState};
ghost use Rattle.book_endpoint.specs.Emissions as book;
ghost use Rattle.tcp_endpoint.specs.Numbers.{expected_in};
ghost use Rattle.tcp_endpoint.specs.Ends.{Stands, FitsEnd};
ghost use Rattle.tcp_endpoint.specs.Plans.{draft_of, flags_of, IsCarried};
ghost use Rattle.tcp_endpoint.specs.Emissions.{MakeCosts, Makes};

use crate::emission::Made;
use crate::endpoint::Endpoint;
use crate::outlines::flags_of;
use crate::plans::Plan;
use crate::sequence::Received;
use ao_base::Steps;
use ao_check::Sending;
use key_table::Table;
use segment_writer::{Outgoing, Piece, Written, write_segment};
use std::sync::ledger::Ledger;
use tcp_segment::Flag;

/// The sequence number expected; 0 while nothing is known of the peer.
fn expected_field(received: Option<Received>) -> u32
    ensures { result ≡ expected_in received % ring }
{
    match received {
        Some(received) => received.expected.low,
        None => 0,
    }
}

/// The number that a segment with these flags acknowledges.
fn acknowledged_by(flags: u8, received: Option<Received>) -> Option<u64>
    ensures { result ≡ (if book.sets flags 16 then Some (expected_in received) else None) }
{
    if !Flag::Ack.is_in(flags) {
        return None;
    }
    match received {
        Some(received) => Some(received.expected.value()),
        None => Some(0),
    }
}

impl Endpoint {
    /// Makes a planned segment under the key of the row to send with, which is current.
    pub(crate) fn make<L: Ledger>(
        &mut self,
        plan: Plan,
        table: &Table,
        sending: &Sending,
        out: &mut [u8],
        steps: &mut Steps<L>,
    ) -> Made
        requires carried { IsCarried self.old plan }
        requires fits { FitsEnd table.now.rows self.old }
        requires low { 1 ≤ sending.now.row }
        requires high { sending.now.row ≤ length table.now.rows }
        requires room { 1500 ≤ length out.old }
        ensures makes { (s : EndState) (chosen : Chosen) → Stands self.old s → s.current ≡ Some chosen.number
            → sending.now ≡ told chosen → slice_get table.now.rows (chosen.number - 1) ≡ Some chosen.row
            → Makes self.new out.old out.new result (book.made_under self.old.pair s chosen
            (draft_of s (book.most_bytes self.old.pair s chosen) plan)) }
        ensures sending { result.sending ≡ sending.now }
        ensures short { result.length ≤ 1500 }
        ensures pair { self.new.pair ≡ self.old.pair }
        ensures fits { FitsEnd table.now.rows self.new }
        ensures costs { MakeCosts self.old.association.keys self.new.association.keys result steps.old steps.new }
        ensures steps { steps.new ≤ steps.old + 1 }
    {
        let flags = flags_of(plan);
        let most = self.most_bytes(table.row(sending.row).algorithm());
        let outline = self.outline(plan, most);
        let ack = acknowledged_by(flags, self.sequence.received);
        let outgoing = Outgoing {
            flags,
            number: outline.number,
            expected: expected_field(self.sequence.received),
            window: self.reassembly.window(),
            payload: Piece {
                queue: &self.queue,
                offset: outline.offset,
                count: outline.count,
            },
        };
        let Written { length, context } = write_segment(
            out,
            &self.pair,
            &outgoing,
            &mut self.association,
            table,
            sending,
            steps,
        );
        self.carry_out(plan, outline.count);
        Made {
            length,
            sending: *sending,
            number: outline.number.value(),
            ack,
            flags,
            payload: outline.count,
            context,
        }
    }
}
