//! The header of a pcap file.
ghost use Rattle.std.specs.Prelude.{◌≡◌, length};
ghost use Rattle.book_pcap.specs.Packets.{order_of, head_of, link_of};

use crate::numbers::{u16_at, u32_at};
use book_pcap::{ByteOrder, Head, HeadFault, LinkType};

/// How many bytes the header has (pcap-savefile).
pub(crate) const HEAD: usize = 24;

/// The number that begins a file (pcap-savefile).
const MAGIC: u32 = 0xa1b2_c3d4;

/// What the 24 bytes of a header say, or the first fault.
#[tactic(auto, unfolding(book_pcap::specs::Packets::head_of))]
pub(crate) fn read_head(head: &[u8]) -> Result<Head, HeadFault>
    requires { length head.now ≡ 24 }
    ensures { result ≡ head_of head.now }
{
    let Some(order) = read_order(head) else {
        return Err(HeadFault::Magic);
    };
    if u16_at(order, head, 4) != 2 || u16_at(order, head, 6) != 4 {
        return Err(HeadFault::Version);
    }
    read_link(order, u32_at(order, head, 20) % 65536)
}

fn read_order(head: &[u8]) -> Option<ByteOrder>
    requires { length head.now ≡ 24 }
    ensures { result ≡ order_of head.now }
{
    if u32_at(ByteOrder::Big, head, 0) == MAGIC {
        return Some(ByteOrder::Big);
    }
    if u32_at(ByteOrder::Little, head, 0) == MAGIC {
        return Some(ByteOrder::Little);
    }
    None
}

fn read_link(order: ByteOrder, link: u32) -> Result<Head, HeadFault>
    ensures { result ≡ link_of order link }
{
    let link = match link {
        1 => LinkType::Ethernet,
        101 => LinkType::Raw,
        _ => return Err(HeadFault::LinkType),
    };
    Ok(Head { order, link })
}
