//! A fault of a key file, as numbers.
ghost use Rattle.std.specs.Prelude.{◌≡◌};
ghost use Rattle.aotcp_c.specs.Shapes.{fault_of};

use crate::numbers::column_number;
use crate::shapes::CFault;
use book_keys::TableFault;

/// A fault of a key file, as numbers.
pub(crate) fn fault_of(fault: TableFault) -> CFault
    ensures { result ≡ fault_of fault }
{
    let (kind, node, row, other) = match fault {
        TableFault::Memory => (1, 0, 0, 0),
        TableFault::Syntax => (2, 0, 0, 0),
        TableFault::Field(node, row, column) => (3, node, row, column_number(column)),
        TableFault::TooMany(node) => (4, node, 0, 0),
        TableFault::Overlap(node, one, two) => (5, node, one, two),
    };
    CFault {
        kind,
        node,
        row,
        other,
    }
}
