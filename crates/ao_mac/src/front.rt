//! What a MAC is computed over, but for the payload.
ghost use Rattle.std.specs.Prelude.{◌≡◌, ◌≤◌, ◌+◌, ℕ, List, [], ◌∷◌, ◌++◌, length, take, replicate};
ghost use Rattle.book_segments.specs.Bytes.{put2, put4};
ghost use Rattle.book_segments.specs.Options.{One, find_ao};
ghost use Rattle.book_segments.specs.Segments.{pseudo, header, tcp_length};
ghost use Rattle.book_segments.specs.Spelling.{Fits};
ghost use Rattle.tcp_segment.specs.Views.{view_ao};
ghost use Rattle.book_macs.specs.MacInput.{covered};

use book_base::Address;
use std::marker::Model;
use tcp_segment::{AO_HEAD, AO_KIND, AoOption, Datagram, TCP_PROTOCOL};

/// The most bytes before the payload: those of the extension, the pseudo-header of IPv6, the header
/// and the longest options.
const LONGEST: usize = 104;
/// Zero bytes, as many as an option can have.
const ZEROS: [u8; 40] = [0; 40];

/// Bytes held in place, one after another: a hasher takes them as one piece.
#[derive(Drop)]
pub(crate) struct Front {
    bytes: [u8; LONGEST],
    length: usize,
}

impl Model for Front {
    ghost use Rattle.std.specs.Prelude.{◌≤◌, ℕ, List, take};

    ghost Value = { List ℕ };

    ghost view = { λ f. take f.length f.bytes };

    ghost invariant = { λ f. f.length ≤ 104 };
}

impl Front {
    /// What a MAC is computed over before the payload: the extension, the pseudo-header, the header
    /// with its checksum zero, and the options that are covered with the MAC zero (RFC 5925, section
    /// 5.1).
    pub(crate) fn of(
        sne: u32,
        datagram: &Datagram<'_>,
        ao: AoOption<'_>,
        with_options: bool,
    ) -> Front
        requires { find_ao datagram.now.area ≡ One (view_ao ao) }
        ensures { result ≡ ((put4 sne [] ++ pseudo datagram.now []) ++ header datagram.now 0 [])
            ++ covered with_options datagram.now.area (view_ao ao.entry) }
    {
        let mut front = Front::empty();
        front.push(&sne.to_be_bytes());
        front.push_pseudo_header(datagram);
        front.push_header(datagram);
        front.push_covered(datagram, ao, with_options);
        front
    }

    /// The bytes, in their order.
    pub(crate) fn as_slice(&self) -> &[u8]
        ensures { result.now ≡ self.now }
    {
        &self.bytes[..self.length]
    }

    fn empty() -> Front
        ensures { result ≡ [] }
    {
        Front {
            bytes: [0; LONGEST],
            length: 0,
        }
    }

    /// Puts bytes behind those that are there.
    fn push(&mut self, piece: &[u8])
        requires { length self.old + length piece.now ≤ 104 }
        ensures { self.new ≡ self.old ++ piece.now }
    {
        let length = self.length;
        lay(&mut self.bytes, length, piece);
        self.length = length + piece.len();
    }

    fn push_zeros(&mut self, count: usize)
        requires count { count ≤ 40 }
        requires room { length self.old + count ≤ 104 }
        ensures { self.new ≡ self.old ++ replicate count 0 }
    {
        self.push(&ZEROS[..count]);
    }

    /// Puts the pseudo-header of IPv4 (RFC 9293, section 3.1).
    fn push_pseudo_v4(&mut self, source: &[u8; 4], destination: &[u8; 4], total: u16)
        requires { length self.old ≤ 4 }
        ensures most { length self.new ≤ 44 }
        ensures bytes { self.new ≡ self.old ++ (source.now ++ (destination.now ++ (0 ∷ 6 ∷ put2 total []))) }
    {
        let [high, low] = total.to_be_bytes();
        self.push(source);
        self.push(destination);
        self.push(&[0, TCP_PROTOCOL, high, low]);
    }

    /// Puts the pseudo-header of IPv6 (RFC 8200, section 8.1).
    fn push_pseudo_v6(&mut self, source: &[u8; 16], destination: &[u8; 16], total: u16)
        requires { length self.old ≤ 4 }
        ensures most { length self.new ≤ 44 }
        ensures bytes { self.new ≡ self.old ++ (source.now ++ (destination.now ++ put4 total (0 ∷ 0 ∷ 0 ∷ 6 ∷ []))) }
    {
        let [high, low] = total.to_be_bytes();
        self.push(source);
        self.push(destination);
        self.push(&[0, 0, high, low, 0, 0, 0, TCP_PROTOCOL]);
    }

    /// Puts the pseudo-header (RFC 9293, section 3.1; RFC 8200, section 8.1).
    fn push_pseudo_header(&mut self, datagram: &Datagram<'_>)
        requires { length self.old ≤ 4 }
        ensures bytes { self.new ≡ self.old ++ pseudo datagram.now [] }
        ensures most { length self.new ≤ 44 }
    {
        let length = tcp_length_of(datagram);
        match (datagram.source().address, datagram.destination().address) {
            (Address::V4(source), Address::V4(destination)) => {
                self.push_pseudo_v4(&source, &destination, length);
            }
            (Address::V6(source), Address::V6(destination)) => {
                self.push_pseudo_v6(&source, &destination, length);
            }
            _ => unreachable!(),
        }
    }

    /// Puts the TCP header with its checksum zero.
    fn push_header(&mut self, datagram: &Datagram<'_>)
        requires { length self.old ≤ 44 }
        ensures bytes { self.new ≡ self.old ++ header datagram.now 0 [] }
        ensures most { length self.new ≤ 64 }
    {
        let header = datagram.header();
        self.push(&header[..16]);
        self.push_zeros(2);
        self.push(&header[18..]);
    }

    /// Puts the options that are covered, with the MAC zero (RFC 5925, section 5.1).
    fn push_options(&mut self, area: &[u8], ao: AoOption<'_>, with_options: bool)
        requires within { ao.place + 4 + length ao.mac.now ≤ length area.now }
        requires room { length area.now ≤ 40 }
        requires before { length self.old ≤ 64 }
        ensures { self.new ≡ self.old ++ covered with_options area.now (view_ao ao.entry) }
    {
        let length = ao.mac.len();
        let front = ao.place as usize + 4;
        if with_options {
            self.push(&area[..front]);
            self.push_zeros(length);
            self.push(&area[front + length..]);
        } else {
            self.push(&[AO_KIND, AO_HEAD + length as u8, ao.key_id, ao.rnext]);
            self.push_zeros(length);
        }
    }

    /// Puts the options of a segment that are covered; its TCP-AO option was found.
    fn push_covered(&mut self, datagram: &Datagram<'_>, ao: AoOption<'_>, with_options: bool)
        requires one { find_ao datagram.now.area ≡ One (view_ao ao) }
        requires before { length self.old ≤ 64 }
        ensures { self.new ≡ self.old ++ covered with_options datagram.now.area (view_ao ao.entry) }
    {
        let options = datagram.options();
        self.push_options(options.area(), ao, with_options);
    }
}

/// Lays a piece over the bytes from `at` on.
fn lay(bytes: &mut [u8; LONGEST], at: usize, piece: &[u8])
    requires { at + length piece.now ≤ 104 }
    ensures { take (at + length piece.now) bytes.new ≡ take at bytes.old ++ piece.now }
{
    bytes[at..at + piece.len()].copy_from_slice(piece);
}

/// The length that the pseudo-header says.
pub(crate) fn tcp_length_of(datagram: &Datagram<'_>) -> u16
    ensures length { result ≡ tcp_length datagram.now }
    ensures fits { Fits datagram.now }
{
    (20 + datagram.options().area().len() + datagram.payload().len()) as u16
}
