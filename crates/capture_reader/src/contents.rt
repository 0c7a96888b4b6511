//! What the blocks of a pcapng file say.
ghost use Rattle.std.specs.Prelude.{◌≡◌, ◌<◌, ◌==◌, ◌&&◌, length, drop, MatchOption, Some, None};
ghost use Rattle.book_captures.specs.BlockContents.{resolution_of as resolution_of_byte};
ghost use Rattle.book_captures.specs.BlockContents.{resolution_told as resolution_told_by};
ghost use Rattle.book_captures.specs.BlockContents.{option_in as value_of_option, eight_at};
ghost use Rattle.book_captures.specs.BlockContents.{offset_of as offset_told, offset_by as offset_told_by};
ghost use Rattle.book_captures.specs.BlockContents.{interface_in, stamped_in, enhanced_in, old_in};
ghost use Rattle.book_captures.specs.BlockContents.{simple_length as length_of_simple, simple_in, padded_length};
ghost use Rattle.capture_reader.specs.Found.{Gives, as_it_is, seen_stamped, seen_plain};

use book_captures::{BodyFault, Interface, TimeOffset, TimeResolution};
use book_pcap::ByteOrder;
use pcap_file::{u16_at, u32_at};

/// A packet with its time, as a block keeps it.
#[derive(Clone, Copy, Debug)]
pub struct Stamped<'a> {
    /// The number of its interface in the section, from 0 on.
    pub interface: u32,
    /// When it was seen, in the units of its interface since 1970.
    pub count: u64,
    /// How many bytes it had.
    pub original: u32,
    /// The bytes that the snapshot left.
    pub bytes: &'a [u8],
}

/// A packet without a time, as a simple block keeps it.
#[derive(Clone, Copy, Debug)]
pub struct Plain<'a> {
    /// How many bytes it had.
    pub original: u32,
    /// The bytes that the snapshot left.
    pub bytes: &'a [u8],
}

/// What the body of a block of type 1 says of an interface. Short: it has fewer than eight bytes.
#[tactic(auto, unfolding(book_captures::specs::BlockContents::interface_in))]
pub fn read_interface(order: ByteOrder, body: &[u8]) -> Result<Interface, BodyFault>
    ensures { Gives as_it_is result (interface_in order body.now) }
{
    if body.len() < 8 {
        return Err(BodyFault::Short);
    }
    let (_fields, options) = body.split_at(8);
    Ok(Interface {
        link: u16_at(order, body, 0) as u32,
        snapshot: u32_at(order, body, 4),
        resolution: resolution_in(order, options, body.len()),
        offset: offset_in(order, options, body.len()),
    })
}

// The value of the first option of this code and length among at most so many options.
#[tactic(auto, using(crate::proofs::Options::option_steps))]
fn option_in(order: ByteOrder, code: u16, size: usize, options: &[u8], most: usize) -> Option<&[u8]>
    requires { size < 65536 }
    ensures { MatchOption result (value_of_option most order code size options.now ≡ None)
        (λ value. (value_of_option most order code size options.now ≡ Some value.now) × (length value.now ≡ size)) }
{
    let mut options = options;
    'options: for _ in 0..most {
        if options.len() < 4 + size {
            return None;
        }
        let kind = u16_at(order, options, 0);
        if kind == 0 {
            return None;
        }
        let len = u16_at(order, options, 2);
        if is_option(kind, len, code, size) {
            return Some(&options[4..4 + size]);
        }
        options = behind(options, 4 + padded(len));
    }
    None
}

// An option of this code and length is the one that is looked for.
fn is_option(kind: u16, len: u16, code: u16, size: usize) -> bool
    ensures { result ≡ ((kind == code) && (len == size)) }
{
    kind == code && len as usize == size
}

// The resolution that options tell, of which there are at most so many.
fn resolution_in(order: ByteOrder, options: &[u8], most: usize) -> TimeResolution
    ensures { result ≡ resolution_told_by (value_of_option most order 9 1 options.now) }
{
    match option_in(order, 9, 1, options, most) {
        Some(value) => resolution_of(value[0]),
        None => TimeResolution::Decimal(6),
    }
}

// The resolution that a byte tells.
fn resolution_of(byte: u8) -> TimeResolution
    ensures { result ≡ resolution_of_byte byte }
{
    if byte < 128 {
        TimeResolution::Decimal(byte)
    } else {
        TimeResolution::Binary(byte - 128)
    }
}

// The offset that options tell, of which there are at most so many.
fn offset_in(order: ByteOrder, options: &[u8], most: usize) -> TimeOffset
    ensures { result ≡ offset_told_by order (value_of_option most order 14 8 options.now) }
{
    match option_in(order, 14, 8, options, most) {
        Some(value) => offset_of(eight(order, value)),
        None => TimeOffset::Later(0),
    }
}

// The number of eight bytes.
fn eight(order: ByteOrder, bytes: &[u8]) -> u64
    requires { length bytes.now ≡ 8 }
    ensures { result ≡ eight_at order bytes.now }
{
    let first = u32_at(order, bytes, 0) as u64;
    let second = u32_at(order, bytes, 4) as u64;
    match order {
        ByteOrder::Big => first * 0x1_0000_0000 + second,
        ByteOrder::Little => first + second * 0x1_0000_0000,
    }
}

// The offset that a number in two's complement tells.
fn offset_of(number: u64) -> TimeOffset
    ensures { result ≡ offset_told number }
{
    if number < 0x8000_0000_0000_0000 {
        TimeOffset::Later(number)
    } else {
        TimeOffset::Earlier(u64::MAX - number + 1)
    }
}

// The length of an option's value with its padding.
fn padded(len: u16) -> usize
    ensures { result ≡ padded_length len }
{
    (len as usize + 3) / 4 * 4
}

// The bytes behind so many, if there are as many.
fn behind(bytes: &[u8], past: usize) -> &[u8]
    ensures { result.now ≡ drop past bytes.now }
{
    if bytes.len() < past {
        return &[];
    }
    let (_front, rest) = bytes.split_at(past);
    rest
}

/// The packet in the body of an enhanced block, of type 6. Short: the body has no room for it.
#[tactic(auto, unfolding(book_captures::specs::BlockContents::enhanced_in))]
pub fn read_enhanced(order: ByteOrder, body: &[u8]) -> Result<Stamped<'_>, BodyFault>
    ensures { Gives seen_stamped result (enhanced_in order body.now) }
{
    if body.len() < 20 {
        return Err(BodyFault::Short);
    }
    packet_in(order, u32_at(order, body, 0), body)
}

/// The packet in the body of an old block, of type 2. Short: the body has no room for it.
#[tactic(auto, unfolding(book_captures::specs::BlockContents::old_in))]
pub fn read_old(order: ByteOrder, body: &[u8]) -> Result<Stamped<'_>, BodyFault>
    ensures { Gives seen_stamped result (old_in order body.now) }
{
    if body.len() < 20 {
        return Err(BodyFault::Short);
    }
    packet_in(order, u16_at(order, body, 0) as u32, body)
}

// The packet in the body of a block, of the interface of this number.
fn packet_in(order: ByteOrder, interface: u32, body: &[u8]) -> Result<Stamped<'_>, BodyFault>
    ensures { Gives seen_stamped result (stamped_in order interface body.now) }
{
    if body.len() < 20 {
        return Err(BodyFault::Short);
    }
    let kept = u32_at(order, body, 12) as usize;
    if body.len() < 20 + kept {
        return Err(BodyFault::Short);
    }
    let high = u32_at(order, body, 4) as u64;
    let count = high * 0x1_0000_0000 + u32_at(order, body, 8) as u64;
    let original = u32_at(order, body, 16);
    let (_fields, behind) = body.split_at(20);
    let (bytes, _padding) = behind.split_at(kept);
    Ok(Stamped {
        interface,
        count,
        original,
        bytes,
    })
}

/// The packet in the body of a simple block, of type 3, of an interface with this snapshot. Short: the
/// body has no room for it.
#[tactic(auto, unfolding(book_captures::specs::BlockContents::simple_in))]
pub fn read_simple(order: ByteOrder, snapshot: u32, body: &[u8]) -> Result<Plain<'_>, BodyFault>
    ensures { Gives seen_plain result (simple_in order snapshot body.now) }
{
    if body.len() < 4 {
        return Err(BodyFault::Short);
    }
    let original = u32_at(order, body, 0);
    let kept = simple_length(snapshot, original) as usize;
    if body.len() < 4 + kept {
        return Err(BodyFault::Short);
    }
    let (_original, behind) = body.split_at(4);
    let (bytes, _padding) = behind.split_at(kept);
    Ok(Plain { original, bytes })
}

// How many bytes a simple block keeps of a packet that had so many.
fn simple_length(snapshot: u32, original: u32) -> u32
    ensures { result ≡ length_of_simple snapshot original }
{
    if snapshot == 0 {
        original
    } else {
        original.min(snapshot)
    }
}
