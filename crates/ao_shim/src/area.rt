//! The bytes of an option area.
ghost use Rattle.std.specs.Prelude.{◌≡◌, ◌+◌, ◌≤◌, ◌++◌, ◌∷◌, List, ℕ, [], length, take};
ghost use Rattle.tcp_segment.specs.Views.{view_opt};
ghost use Rattle.book_segments.specs.Bytes.{put2};
ghost use Rattle.book_shim.specs.Relaying.{spelled, sack, going, is_left_out, coming, with_mss, in_words};
ghost use Rattle.book_shim.specs.Relaying.{lowered as mss_lowered};
ghost use Rattle.ao_shim.specs.Puts.{Puts};

use book_shim::Trim;
use byteorder::{BigEndian, ByteOrder};
use std::marker::Model;
use tcp_segment::{AO_KIND, MSS_KIND, Opt};

/// The most bytes of an option area (RFC 9293, section 3.1).
const MOST: usize = 40;
/// The kind of selective acknowledgements (RFC 2018, section 3).
const SACK_KIND: u8 = 5;
/// The kind of multipath (RFC 8684, section 3).
const MULTIPATH_KIND: u8 = 30;
/// The kind of Fast Open (RFC 7413, section 4.1.1).
const FAST_OPEN_KIND: u8 = 34;
/// How many bytes a block of selective acknowledgements has (RFC 2018, section 3).
const BLOCK: usize = 8;
/// The most bytes of a TCP-AO option: four, and a MAC of 16 (RFC 5925, section 2.2).
const LONGEST_AO: u16 = 20;
/// Three options that fill up (RFC 9293, section 3.2).
const NOPS: [u8; 3] = [1, 1, 1];

/// The bytes of an option area, 40 at most; seen as their list.
#[derive(Drop)]
pub struct Area {
    bytes: [u8; MOST],
    length: usize,
}

impl Model for Area {
    ghost use Rattle.std.specs.Prelude.{◌≤◌, ℕ, List, take};

    ghost Value = { List ℕ };

    ghost view = { λ a. take a.length a.bytes };

    ghost invariant = { λ a. a.length ≤ 40 };
}

impl Area {
    /// No bytes.
    pub fn empty() -> Area
        ensures { result ≡ [] }
    {
        Area {
            bytes: [0; MOST],
            length: 0,
        }
    }

    /// How many bytes there are.
    pub fn len(&self) -> usize
        ensures value { result ≡ length self.now }
        ensures most { result ≤ 40 }
    {
        self.length
    }

    /// The bytes.
    pub fn as_slice(&self) -> &[u8]
        ensures bytes { result.now ≡ self.now }
        ensures most { length result.now ≤ 40 }
    {
        &self.bytes[..self.length]
    }

    /// Puts bytes after the others, if they have room there.
    pub fn push(&mut self, piece: &[u8]) -> bool
        ensures { Puts self.old piece.now self.new result }
    {
        let length = self.length;
        if MOST - length < piece.len() {
            return false;
        }
        lay(&mut self.bytes, length, piece);
        self.length = length + piece.len();
        true
    }

    /// Puts an option with a length byte after the others, if it has room there.
    fn push_long(&mut self, kind: u8, body: &[u8]) -> bool
        ensures { Puts self.old (kind ∷ (2 + length body.now) ∷ body.now) self.new result }
    {
        if body.len() > MOST {
            return false;
        }
        let head = [kind, 2 + body.len() as u8];
        if !self.push(&head) {
            return false;
        }
        self.push(body)
    }

    /// Puts an option after the others as it is, if it has room there.
    fn push_option(&mut self, option: Opt<'_>) -> bool
        ensures { Puts self.old (spelled (view_opt option.entry)) self.new result }
    {
        if option.kind < 2 {
            self.push(&[option.kind])
        } else {
            self.push_long(option.kind, option.body)
        }
    }

    /// Puts selective acknowledgements of these blocks after the others, if they have room there.
    fn push_sack(&mut self, blocks: &[u8]) -> bool
        ensures { Puts self.old (sack blocks.now) self.new result }
    {
        if blocks.is_empty() {
            return true;
        }
        self.push_long(SACK_KIND, blocks)
    }

    /// Puts an option after the others as it goes out, if it has room there.
    pub(crate) fn push_going(&mut self, trim: Trim, option: Opt<'_>) -> bool
        requires { trim.blocks ≤ 4 }
        ensures { Puts self.old (going trim (view_opt option.entry)) self.new result }
    {
        if leaves_out(trim, option) {
            return true;
        }
        if option.kind == SACK_KIND {
            return self.push_sack(front_of(option.body, BLOCK * trim.blocks as usize));
        }
        self.push_option(option)
    }

    /// Puts an option after the others as it comes in, if it has room there.
    pub(crate) fn push_coming(&mut self, most: Option<u16>, option: Opt<'_>) -> bool
        ensures { Puts self.old (coming most (view_opt option.entry)) self.new result }
    {
        if option.kind == 0 || option.kind == AO_KIND {
            return true;
        }
        self.push_with_mss(most, option)
    }

    /// Puts an option after the others, a maximum segment size lowered where there is a most, if it has
    /// room there.
    fn push_with_mss(&mut self, most: Option<u16>, option: Opt<'_>) -> bool
        ensures { Puts self.old (with_mss most (view_opt option.entry)) self.new result }
    {
        match most {
            None => self.push_option(option),
            Some(most) => {
                if option.kind == MSS_KIND && option.body.len() == 2 {
                    self.push(&lowered(most, option.body))
                } else {
                    self.push_option(option)
                }
            }
        }
    }

    /// Fills up to whole words.
    pub(crate) fn fill(&mut self)
        ensures { self.new ≡ in_words self.old }
    {
        let count = (4 - self.length % 4) % 4;
        self.push(&NOPS[..count]);
    }
}

/// Lays a piece over the bytes from `at` on.
fn lay(bytes: &mut [u8; MOST], at: usize, piece: &[u8])
    requires { at + length piece.now ≤ 40 }
    ensures { take (at + length piece.now) bytes.new ≡ take at bytes.old ++ piece.now }
{
    bytes[at..at + piece.len()].copy_from_slice(piece);
}

/// Whether an option is left out.
fn leaves_out(trim: Trim, option: Opt<'_>) -> bool
    ensures { result ≡ is_left_out trim (view_opt option.entry) }
{
    option.kind == 0
        || (trim.packed && option.kind == 1
            || trim.bare && (option.kind == MULTIPATH_KIND || option.kind == FAST_OPEN_KIND))
}

/// The first so many bytes, or all where there are fewer.
fn front_of(bytes: &[u8], count: usize) -> &[u8]
    ensures { result.now ≡ take count bytes.now }
{
    if bytes.len() < count {
        bytes
    } else {
        &bytes[..count]
    }
}

/// The option of a maximum segment size, at most this one, lowered by the longest TCP-AO option.
fn lowered(most: u16, body: &[u8]) -> [u8; 4]
    requires { length body.now ≡ 2 }
    ensures { result ≡ 2 ∷ 4 ∷ put2 (mss_lowered most body.now) [] }
{
    let size = lowered_size(most, body);
    let mut option = [MSS_KIND, 4, 0, 0];
    BigEndian::write_u16(&mut option[2..], size);
    option
}

/// A maximum segment size, at most this one, less the longest TCP-AO option.
fn lowered_size(most: u16, body: &[u8]) -> u16
    requires { length body.now ≡ 2 }
    ensures { result ≡ mss_lowered most body.now }
{
    let mss = BigEndian::read_u16(body);
    let size = if mss < most { mss } else { most };
    size.saturating_sub(LONGEST_AO)
}
