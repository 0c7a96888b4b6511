//! Whether the MACs of two segments are computed over the same bytes.
ghost use Rattle.std.specs.Prelude.{◌≡◌, ◌↔◌, ◌+◌, ◌/◌, ◌^◌, ◌≤◌, ◌<◌, ℕ, List, [], length, slice_index, IsTrue};
ghost use Rattle.book_segments.specs.Options.{One, find_ao};
ghost use Rattle.book_segments.specs.Segments.{pseudo, header};
ghost use Rattle.book_macs.specs.MacInput.{covered, mac_input};
ghost use Rattle.tcp_segment.specs.Views.{view_ao};
ghost use Rattle.ao_mac.specs.Macs.{IsSameInput};

use crate::front::tcp_length_of;
use book_base::Address;
use std::marker::Model;
use tcp_segment::{AO_HEAD, AO_KIND, AoOption, Datagram};

/// What the MAC of a segment is computed over (RFC 5925, section 5.1).
#[derive(Clone, Copy)]
pub struct MacInput<'a> {
    /// The sequence number extension.
    pub sne: u32,
    pub datagram: &'a Datagram<'a>,
    /// The segment's one TCP-AO option; it has none of TCP MD5.
    pub option: AoOption<'a>,
    /// Whether all options are covered, or the TCP-AO option alone.
    pub with_options: bool,
}

/// The options that are covered, the MAC as zeros; seen as their bytes.
#[derive(Drop)]
struct Covered<'a> {
    area: &'a [u8],
    ao: AoOption<'a>,
    whole: bool,
}

impl<'a> Model for Covered<'a> {
    ghost use Rattle.std.specs.Prelude.{◌+◌, ◌≤◌, ℕ, List, length};
    ghost use Rattle.book_macs.specs.MacInput.{covered};
    ghost use Rattle.tcp_segment.specs.Views.{view_ao};

    ghost Value = { List ℕ };

    ghost view = { λ c. covered c.whole c.area.now (view_ao c.ao) };

    ghost invariant = { λ c. (c.ao.place + 4 + length c.ao.mac.now ≤ length c.area.now) × (length c.area.now ≤ 40) };
}

impl<'a> Covered<'a> {
    /// How many bytes are covered.
    fn len(&self) -> usize
        ensures { result ≡ length self.now }
    {
        if self.whole {
            self.area.len()
        } else {
            4 + self.ao.mac.len()
        }
    }

    /// The byte at an index, and 0 past the end.
    fn at(&self, index: usize) -> u8
        ensures { result ≡ slice_index self.now index }
    {
        let mac = self.ao.place as usize + 4;
        let behind = mac + self.ao.mac.len();
        if self.whole {
            if index < mac || behind <= index {
                self.area.get(index).copied().unwrap_or(0)
            } else {
                0
            }
        } else {
            match index {
                0 => AO_KIND,
                1 => AO_HEAD + self.ao.mac.len() as u8,
                2 => self.ao.key_id,
                3 => self.ao.rnext,
                _ => 0,
            }
        }
    }
}

/// Whether the first so many bytes are the same.
fn same_front(one: &Covered<'_>, other: &Covered<'_>, len: usize) -> bool
    ensures { IsTrue result ↔ ((k : ℕ) → k < len → slice_index one.now k ≡ slice_index other.now k) }
{
    (0..len).all(|index| one.at(index) == other.at(index))
}

/// Whether the same bytes are covered.
fn same_covered(one: &Covered<'_>, other: &Covered<'_>) -> bool
    ensures { IsTrue result ↔ (one.now ≡ other.now) }
{
    let len = one.len();
    if len != other.len() {
        return false;
    }
    same_front(one, other, len)
}

/// The options that are covered.
fn covered_of<'a>(input: &MacInput<'a>) -> Covered<'a>
    requires found { find_ao input.now.datagram.now.area ≡ One (view_ao input.now.option) }
    ensures { result ≡ covered input.now.with_options input.now.datagram.now.area (view_ao input.now.option) }
{
    let options = input.datagram.options();
    Covered {
        area: options.area(),
        ao: input.option,
        whole: input.with_options,
    }
}

/// Whether the same options are covered.
fn same_options(one: &MacInput<'_>, other: &MacInput<'_>) -> bool
    requires one { find_ao one.now.datagram.now.area ≡ One (view_ao one.now.option) }
    requires other { find_ao other.now.datagram.now.area ≡ One (view_ao other.now.option) }
    ensures { IsTrue result ↔ (covered one.now.with_options one.now.datagram.now.area (view_ao one.now.option)
        ≡ covered other.now.with_options other.now.datagram.now.area (view_ao other.now.option)) }
{
    same_covered(&covered_of(one), &covered_of(other))
}

/// Whether the bytes are the same.
fn same_bytes(one: &[u8], other: &[u8]) -> bool
    ensures { IsTrue result ↔ (one.now ≡ other.now) }
{
    one == other
}

/// Whether the address is the same.
fn same_address(one: &Address, other: &Address) -> bool
    ensures { IsTrue result ↔ (one.now ≡ other.now) }
{
    one == other
}

/// Whether the sequence number extension is the same.
fn same_extension(sne: u32, other: u32) -> bool
    ensures same { IsTrue result ↔ (sne ≡ other) }
    ensures fits { (sne < 2 ^ 32) × (other < 2 ^ 32) }
{
    sne == other
}

/// Whether the pseudo-header is the same.
fn same_pseudo_header(datagram: &Datagram<'_>, other: &Datagram<'_>) -> bool
    ensures { IsTrue result ↔ (pseudo datagram.now [] ≡ pseudo other.now []) }
{
    if tcp_length_of(datagram) != tcp_length_of(other) {
        return false;
    }
    if !same_address(&datagram.source().address, &other.source().address) {
        return false;
    }
    same_address(
        &datagram.destination().address,
        &other.destination().address,
    )
}

/// Whether the TCP header is the same but for its checksum.
fn same_header(datagram: &Datagram<'_>, other: &Datagram<'_>) -> bool
    ensures { IsTrue result ↔ (header datagram.now 0 [] ≡ header other.now 0 []) }
{
    let header = datagram.header();
    let other_header = other.header();
    if !same_bytes(&header[..16], &other_header[..16]) {
        return false;
    }
    same_bytes(&header[18..], &other_header[18..])
}

/// Whether the MACs of two segments are computed over the same bytes (RFC 5925, section 5.1). What
/// stands in the MAC fields and in the checksums doesn't count. The answer comes at the first
/// difference.
pub fn same_input(one: &MacInput<'_>, other: &MacInput<'_>) -> bool
    requires one { find_ao one.now.datagram.now.area ≡ One (view_ao one.now.option) }
    requires other { find_ao other.now.datagram.now.area ≡ One (view_ao other.now.option) }
    ensures { IsSameInput result one.now.sne one.now.datagram.now one.now.with_options
        other.now.sne other.now.datagram.now other.now.with_options }
{
    let payload = one.datagram.payload();
    let other_payload = other.datagram.payload();
    if !same_extension(one.sne, other.sne) {
        return false;
    }
    if !same_header(one.datagram, other.datagram) {
        return false;
    }
    if !same_pseudo_header(one.datagram, other.datagram) {
        return false;
    }
    if !same_options(one, other) {
        return false;
    }
    same_bytes(payload, other_payload)
}
