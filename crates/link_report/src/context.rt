//! Whether two contexts are the same bytes.
ghost use Rattle.std.specs.Prelude.{◌≡◌, ◌↔◌, ◌++◌, ◌≤◌, IsTrue, length};
ghost use Rattle.book_segments.specs.Sockets.{octets};
ghost use Rattle.book_macs.specs.Contexts.{bytes_of};
ghost use Rattle.link_report.specs.Contexts.{numbers_of};

use book_base::Address;
use book_macs::Context;

/// The bytes of an address in the order in which they are sent.
fn octets_of(address: &Address) -> &[u8]
    ensures { result.now ≡ octets address.now }
{
    match address {
        Address::V4(bytes) => bytes,
        Address::V6(bytes) => bytes,
    }
}

/// Whether the bytes are the same.
fn is_equal(one: &[u8], other: &[u8]) -> bool
    ensures { IsTrue result ↔ (one.now ≡ other.now) }
{
    one == other
}

/// Whether the bytes are those of two pieces.
fn is_joined(whole: &[u8], front: &[u8], back: &[u8]) -> bool
    ensures { IsTrue result ↔ (whole.now ≡ front.now ++ back.now) }
{
    if whole.len() < front.len() {
        return false;
    }
    let (first, rest) = whole.split_at(front.len());
    if !is_equal(first, front) {
        return false;
    }
    is_equal(rest, back)
}

/// Whether the first two pieces are the same bytes together as the others, where the first is no
/// longer than the third.
fn is_same_from_shorter(one: &[u8], two: &[u8], three: &[u8], four: &[u8]) -> bool
    requires { length one.now ≤ length three.now }
    ensures { IsTrue result ↔ (one.now ++ two.now ≡ three.now ++ four.now) }
{
    let (front, back) = three.split_at(one.len());
    if !is_equal(front, one) {
        return false;
    }
    is_joined(two, back, four)
}

/// Whether the first two pieces are the same bytes together as the others.
fn is_same(one: &[u8], two: &[u8], three: &[u8], four: &[u8]) -> bool
    ensures { IsTrue result ↔ (one.now ++ two.now ≡ three.now ++ four.now) }
{
    if one.len() <= three.len() {
        is_same_from_shorter(one, two, three, four)
    } else {
        is_same_from_shorter(three, four, one, two)
    }
}

/// Whether the addresses of two contexts are the same bytes together.
fn has_same_addresses(one: &Context, other: &Context) -> bool
    ensures { IsTrue result ↔ (octets one.now.source.address ++ octets one.now.destination.address
        ≡ octets other.now.source.address ++ octets other.now.destination.address) }
{
    is_same(
        octets_of(&one.source.address),
        octets_of(&one.destination.address),
        octets_of(&other.source.address),
        octets_of(&other.destination.address),
    )
}

/// Whether the ports and the initial sequence numbers of two contexts are the same.
fn has_same_numbers(one: &Context, other: &Context) -> bool
    ensures { IsTrue result ↔ (numbers_of one.now ≡ numbers_of other.now) }
{
    let same_source = one.source.port == other.source.port;
    let same_destination = one.destination.port == other.destination.port;
    let same_source_isn = one.source_isn == other.source_isn;
    let same_dest_isn = one.dest_isn == other.dest_isn;
    same_source & same_destination & same_source_isn & same_dest_isn
}

/// Whether two contexts are the same bytes (RFC 5925, section 5.2).
pub(crate) fn is_same_context(one: &Context, other: &Context) -> bool
    ensures { IsTrue result ↔ (bytes_of one.now ≡ bytes_of other.now) }
{
    if !has_same_numbers(one, other) {
        return false;
    }
    has_same_addresses(one, other)
}
