//! A datagram that is being written.
ghost use Rattle.std.specs.Prelude.{◌≡◌, ◌≤◌, List, ℕ, length, take};
ghost use Rattle.std.specs.Borrow.{sem};
ghost use Rattle.tcp_segment.specs.Layout.{IsFront};

use crate::datagram::{Datagram, datagram_at};
use crate::faults::Places;
use crate::sums::set_checksum;
use lent_bytes::Room;

/// A datagram in a buffer, whose TCP checksum isn't set yet. Its headers are those that
/// `write_datagram` laid out, whatever is put into its MAC and its payload.
#[derive(Drop)]
pub struct Draft<B: Room> {
    pub(crate) out: B,
    pub(crate) header: usize,
    pub(crate) mac: usize,
    pub(crate) payload: usize,
    pub(crate) len: usize,
    ghost order: { mac ≤ payload },
    ghost ends: { payload ≤ len },
    ghost room: { len ≤ length (B.bytes out) },
    ghost headed: { ∥ IsFront (take mac (B.bytes out)) header mac payload len ∥₁ },
}

/// A datagram in a caller's slice.
pub type DatagramMut<'a> = Draft<&'a mut [u8]>;

impl<'a> Draft<&'a mut [u8]> {
    ghost use Rattle.book_segments.specs.Options.{Ao, One, find_ao};
    ghost use Rattle.book_segments.specs.Spelling.{Fits};
    ghost use Rattle.tcp_segment.specs.declared.spelling.Head.{Head};
    ghost use Rattle.tcp_segment.specs.Layout.{drafted, IsFinished};
    ghost use Rattle.tcp_segment.specs.Drafts.{Drafted, draft_length};

    /// How many bytes the datagram has.
    pub fn len(&self) -> usize
        ensures { result ≡ draft_length self.now }
    {
        self.len
    }

    /// The datagram as it stands, with its TCP checksum zero.
    pub fn as_datagram(&self) -> Datagram<'_>
        ensures drafted { (h : Head) (mac payload rest : List ℕ) → Drafted self.now h mac payload rest
            → result ≡ drafted h mac payload }
        ensures one_ao { (ao : Ao) × (find_ao result.area ≡ One ao) }
        ensures fits { Fits result }
    {
        let places = Places {
            header: self.header,
            payload: self.payload,
            end: self.len,
        };
        datagram_at(self.out, places)
    }

    /// Sets the TCP checksum, and gives the datagram's length. What then stands in front of the
    /// buffer is good, and is read again as the same head, MAC and payload, whatever follows.
    pub fn finish(self) -> usize
        ensures len { result ≡ draft_length self.entry }
        ensures finished { (h : Head) (mac payload rest : List ℕ) → Drafted self.entry h mac payload rest
            → IsFinished h mac payload rest self.exit.0.now }
    {
        let Draft {
            out,
            header,
            len,
            ..
        } = self;
        set_checksum(out, header, len);
        len
    }
}

impl<B: Room> Draft<B> {
    ghost use Rattle.tcp_segment.specs.Loans.{LendsPayload, LendsMac};
    ghost use Rattle.tcp_segment.specs.Drafts.{mac_field, payload_field};

    /// The payload, for writing.
    pub fn payload_mut(&mut self) -> &mut [u8]
        ensures* writes { sem 𝓛 (LendsPayload B.row B.Room self.entry result) }
        ensures part { result.now ≡ payload_field self.old }
    {
        let from = self.payload;
        let to = self.len;
        self.out.part_mut(from, to)
    }

    /// The MAC, for writing.
    pub fn mac_mut(&mut self) -> &mut [u8]
        ensures* writes { sem 𝓛 (LendsMac B.row B.Room self.entry result) }
        ensures part { result.now ≡ mac_field self.old }
    {
        let from = self.mac;
        let to = self.payload;
        self.out.part_mut(from, to)
    }
}
