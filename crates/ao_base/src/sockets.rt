//! Whether two addresses or sockets are the same, and of one family.
ghost use Rattle.std.specs.Prelude.{◌≡◌, true};
ghost use Rattle.book_base.specs.Addresses.{same_family};
ghost use Rattle.book_segments.specs.Sockets.{are_two_of_a_family, same_address, same_socket};

use book_base::{Address, Socket};

/// Whether both addresses are of one family, IPv4 or IPv6.
pub fn is_one_family(one: &Address, other: &Address) -> bool
    ensures { result ≡ same_family one.now other.now }
{
    matches!(
        (one, other),
        (Address::V4(_), Address::V4(_)) | (Address::V6(_), Address::V6(_))
    )
}

/// Whether the two are one address: of one family, with the same bytes.
pub fn is_same_address(one: &Address, other: &Address) -> bool
    ensures told { result ≡ same_address one.now other.now }
    ensures same { result ≡ true → one.now ≡ other.now }
{
    one == other
}

/// Whether both addresses are of one family and differ, as those of the two ends of a connection.
pub fn are_two_of_a_family(one: &Address, other: &Address) -> bool
    ensures { result ≡ are_two_of_a_family one.now other.now }
{
    is_one_family(one, other) && !is_same_address(one, other)
}

/// Whether the two are one socket: the same address and port (RFC 9293, section 4).
pub fn is_same_socket(one: &Socket, other: &Socket) -> bool
    ensures told { result ≡ same_socket one.now other.now }
    ensures same { result ≡ true → one.now ≡ other.now }
{
    one == other
}
