//! A segment, written and sealed.
ghost use Rattle.std.specs.Prelude.{◌≡◌, true, ◌≤◌, ◌+◌, ◌-◌, ◌^◌, ℕ, length, Some, slice_index_or};
ghost use Rattle.book_base.specs.declared.address.Pair.{Pair as Sockets};
ghost use Rattle.book_keys.specs.Coordination.{Sending as Chosen};
ghost use Rattle.book_keys.specs.Rows.{Row};
ghost use Rattle.book_endpoint.specs.Emissions.{Draft, Emits, made_under, sealed, sets};
ghost use Rattle.book_endpoint.specs.States.{EndState};
ghost use Rattle.book_segments.specs.Segments.{SYN};
ghost use Rattle.book_macs.specs.Contexts.{bytes_of};
ghost use Rattle.book_base.specs.Addresses.{IsOneFamily};
ghost use Rattle.ao_kdf.specs.declared.way.Way.TheVariants.{Outbound};
ghost use Rattle.ao_check.specs.Bonds.{Counted, Fits};
ghost use Rattle.tcp_segment.specs.Counter.{number as value_of};
ghost use Rattle.segment_writer.specs.Drafts.{IsKnown, IsOf, IsWritten};
ghost use Rattle.segment_writer.specs.Heads.{size_of};

use crate::head::head_of;
use crate::outgoing::{Outgoing, Written};
use ao_base::Steps;
use ao_check::{Association, Sending};
use book_base::Pair;
use key_table::Table;
use lent_bytes::Room;
use std::sync::ledger::Ledger;
use tcp_segment::write_datagram;

/// Writes a segment in front of a buffer: its headers and options, its payload from the send queue, its
/// MAC under the key of the row to send with, its checksums (RFC 9293, section 3.1; RFC 5925, section
/// 7.4). The maximum segment size is told with SYN alone.
///
/// The buffer has at least 1,500 bytes, and the segment at most so many; what is behind it in the
/// buffer stays. Both addresses are of one family and the association's. The segment has SYN without
/// ACK, or the peer's initial sequence number is known. At most one step is counted, and none for a
/// segment without SYN whose key is kept; of the association nothing changes but the keys that it
/// keeps, and none of them is dropped.
pub fn write_segment<L: Ledger>(
    out: &mut [u8],
    pair: &Pair,
    outgoing: &Outgoing<'_>,
    association: &mut Association,
    table: &Table,
    sending: &Sending,
    steps: &mut Steps<L>,
) -> Written
    requires room { 1500 ≤ length out.old }
    requires family { IsOneFamily pair.now.local.address pair.now.remote.address }
    requires sockets { association.old.pair ≡ pair.now }
    requires known { IsKnown outgoing.now.flags association.old.peer }
    requires number { value_of outgoing.now.number ≤ 2 ^ 63 }
    requires piece { outgoing.now.payload.offset + outgoing.now.payload.count ≤ length outgoing.now.payload.queue.now }
    requires fits { Fits table.now.rows association.old }
    requires low { 1 ≤ sending.now.row }
    requires high { sending.now.row ≤ length table.now.rows }
    requires size { (d : Row) → size_of pair.now outgoing.now (slice_index_or table.now.rows (sending.now.row - 1) d)
        ≤ 1500 }
    ensures length { (d : Row) → result.length ≡ size_of pair.now outgoing.now
        (slice_index_or table.now.rows (sending.now.row - 1) d) }
    ensures emits { (s : EndState) (draft : Draft) (chosen : Chosen)
        → IsOf outgoing.now association.old table.now.rows sending.now s draft chosen
        → made_under pair.now s chosen draft ≡ Emits (sealed pair.now s draft chosen (bytes_of result.context)) }
    ensures written { (s : EndState) (draft : Draft) (chosen : Chosen)
        → IsOf outgoing.now association.old table.now.rows sending.now s draft chosen
        → IsWritten (sealed pair.now s draft chosen (bytes_of result.context)).segment result.length out.old out.new }
    ensures same { association.new ≡ record association.old { keys = association.new.keys } }
    ensures fits { Fits table.now.rows association.new }
    ensures most { steps.new ≤ steps.old + 1 }
    ensures counted { Counted association.old.keys association.new.keys (Some sending.now.row) true Outbound
        (sets outgoing.now.flags SYN) steps.old steps.new }
{
    let mac_length = table.row(sending.row).algorithm().mac_length();
    let head = head_of(pair, outgoing, sending, mac_length);
    let piece = outgoing.payload;
    let mut datagram = write_datagram(out, &head, piece.count);
    piece.queue.copy_at(piece.offset, datagram.payload_mut());
    let context = association.sign(
        table,
        sending,
        outgoing.number.value(),
        &mut datagram,
        steps,
    );
    Written {
        length: datagram.finish(),
        context,
    }
}
