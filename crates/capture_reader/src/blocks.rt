//! The blocks of a pcapng file.
ghost use Rattle.std.specs.Prelude.{◌≡◌, ◌≤◌, length, IfOk};
ghost use Rattle.book_captures.specs.Blocks.{told_order as order_told, order_at as order_in};
ghost use Rattle.book_captures.specs.Blocks.{length_fault as fault_of_length, block_of_length, block_at};
ghost use Rattle.capture_reader.specs.Found.{Gives, seen_block, as_it_is};
ghost use Rattle.capture_reader.specs.Places.{placed};

use book_captures::BlockFault;
use book_pcap::ByteOrder;
use pcap_file::u32_at;

/// The type of the header of a section, in either order (section 4.1 of the format).
pub(crate) const SECTION_HEADER: u32 = 0x0a0d_0d0a;

/// The number by which a section's header tells its order.
const BYTE_ORDER_MAGIC: u32 = 0x1a2b_3c4d;

/// The fewest bytes of a block: its type, and its total length twice.
pub(crate) const LEAST_IN_BLOCK: usize = 12;

/// The most bytes that a block may have.
pub const MOST_IN_BLOCK: usize = 16_777_216;

/// A block.
#[derive(Clone, Copy, Debug)]
pub struct Block<'a> {
    /// The order of its numbers' bytes.
    pub order: ByteOrder,
    /// Its type.
    pub kind: u32,
    /// What stands between its lengths.
    pub body: &'a [u8],
}

/// A block by its place at the front of bytes.
#[derive(Clone, Copy)]
pub(crate) struct BlockPlace {
    pub(crate) order: ByteOrder,
    pub(crate) kind: u32,
    /// How many bytes it has.
    pub(crate) len: usize,
}

/// The block at the front, in a section of this order, if in one, and the bytes behind it; or why there is
/// none. Where it is `Short` the bytes may be the front of a block that is sound.
pub fn read_block<'a>(
    section: Option<ByteOrder>,
    text: &'a [u8],
) -> Result<(Block<'a>, &'a [u8]), BlockFault>
    ensures { Gives (λ x. (seen_block x.0, x.1.now)) result (block_at section text.now) }
{
    match place_block(section, text) {
        Ok(place) => {
            let body = &text[8..place.len - 4];
            let (_block, rest) = text.split_at(place.len);
            let BlockPlace { order, kind, .. } = place;
            Ok((Block { order, kind, body }, rest))
        }
        Err(why) => Err(why),
    }
}

/// The place of the block at the front, in a section of this order, if in one; or why there is none.
#[tactic(auto, unfolding(book_captures::specs::Blocks::block_at))]
pub(crate) fn place_block(section: Option<ByteOrder>, text: &[u8]) -> Result<BlockPlace, BlockFault>
    ensures exact { Gives (placed text.now) result (block_at section text.now) }
    ensures least { IfOk result (λ p. 12 ≤ p.len) }
    ensures within { IfOk result (λ p. p.len ≤ length text.now) }
{
    if text.len() < LEAST_IN_BLOCK {
        return Err(BlockFault::Short);
    }
    let order = order_at(section, text)?;
    let len = u32_at(order, text, 4);
    match length_fault(len) {
        Some(why) => Err(why),
        None => whole_block(order, len as usize, text),
    }
}

// The order of the block at the front, in a section of this order, if in one.
pub(crate) fn order_at(section: Option<ByteOrder>, text: &[u8]) -> Result<ByteOrder, BlockFault>
    requires { 12 ≤ length text.now }
    ensures { Gives as_it_is result (order_in section text.now) }
{
    if u32_at(ByteOrder::Big, text, 0) != SECTION_HEADER {
        return match section {
            Some(order) => Ok(order),
            None => Err(BlockFault::NoSection),
        };
    }
    if u32_at(ByteOrder::Big, text, 8) == BYTE_ORDER_MAGIC {
        return Ok(ByteOrder::Big);
    }
    if u32_at(ByteOrder::Little, text, 8) == BYTE_ORDER_MAGIC {
        return Ok(ByteOrder::Little);
    }
    Err(BlockFault::Order)
}

// Why a block has no such total length.
pub(crate) fn length_fault(len: u32) -> Option<BlockFault>
    ensures { result ≡ fault_of_length len }
{
    if (len as usize) < LEAST_IN_BLOCK {
        Some(BlockFault::Length)
    } else if MOST_IN_BLOCK < len as usize {
        Some(BlockFault::TooLong)
    } else if len % 4 == 0 {
        None
    } else {
        Some(BlockFault::Length)
    }
}

// The place of the block of this total length at the front.
fn whole_block(order: ByteOrder, len: usize, text: &[u8]) -> Result<BlockPlace, BlockFault>
    requires least { 12 ≤ len }
    requires some { 12 ≤ length text.now }
    ensures exact { Gives (placed text.now) result (block_of_length order len None text.now) }
    ensures least { IfOk result (λ p. 12 ≤ p.len) }
    ensures within { IfOk result (λ p. p.len ≤ length text.now) }
{
    if text.len() < len {
        return Err(BlockFault::Short);
    }
    if u32_at(order, text, len - 4) as usize != len {
        return Err(BlockFault::Trailer);
    }
    let kind = u32_at(order, text, 0);
    Ok(BlockPlace { order, kind, len })
}
