//! What a packet counts as.
ghost use Rattle.std.specs.Prelude.{◌≡◌};
ghost use Rattle.book_sessions.specs.CheckedLines.{is_foreign_class};
ghost use Rattle.book_sessions.specs.CheckedPackets.{class_by, class_without, is_foreign_segment};
ghost use Rattle.book_sessions.specs.Foreign.{is_of_node};

use book_base::Address;
use book_sessions::{PacketClass, PassedCount, PassedOver};
use capture_listener::has_doubtful;
use key_table::Tables;
use tcp_segment::{AoFound, Datagram};

fn is_of_node(tables: &Tables, address: &Address) -> bool
    ensures { result ≡ is_of_node tables.now address.now }
{
    match tables.table(address) {
        None => false,
        Some(_) => true,
    }
}

/// Whether a segment is neither from nor to a node of the tables, and carries no TCP-AO option.
pub(crate) fn is_foreign_segment(tables: &Tables, datagram: &Datagram<'_>) -> bool
    ensures { result ≡ is_foreign_segment tables.now datagram.now }
{
    match datagram.options().find_ao() {
        AoFound::Absent => {
            let from_node = is_of_node(tables, &datagram.source().address);
            !(from_node || is_of_node(tables, &datagram.destination().address))
        }
        AoFound::One(_) => false,
        AoFound::Two => false,
        AoFound::WithMd5 => false,
    }
}

/// What a packet with a segment counts as.
pub(crate) fn class_by(foreign: bool, passes: bool) -> PacketClass
    ensures { result ≡ class_by foreign passes }
{
    if foreign {
        PacketClass::Foreign
    } else if passes {
        PacketClass::Passes
    } else {
        PacketClass::Refused
    }
}

/// What a packet without a segment counts as, for this reason.
pub(crate) fn class_without(why: PassedOver) -> PacketClass
    ensures { result ≡ class_without why }
{
    if has_doubtful(&[PassedCount { why, packets: 1 }]) {
        PacketClass::Doubtful
    } else {
        PacketClass::Other
    }
}

/// Whether a packet counts as foreign.
pub(crate) fn is_foreign(class: PacketClass) -> bool
    ensures { result ≡ is_foreign_class class }
{
    matches!(class, PacketClass::Foreign)
}
