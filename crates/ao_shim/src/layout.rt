//! A datagram that is laid out again.
ghost use Rattle.std.specs.Prelude.{◌≡◌, ℕ, ◌+◌, ◌/◌, ◌==◌, ◌≤◌, ◌<◌, ◌++◌, true, false, length, take, drop};
ghost use Rattle.std.specs.Prelude.{slice_index};
ghost use Rattle.book_segments.specs.Segments.{reading, Read, spell};
ghost use Rattle.book_shim.specs.Relaying.{with_area, relaid, length_in_header, headers_length};
ghost use Rattle.book_shim.specs.Leaving.{as_sent};
ghost use Rattle.ao_shim.specs.Starts.{ip_again};
ghost use Rattle.ao_shim.specs.Laying.{laid};

use crate::parts::put;
use crate::starts::{header_length, ipv4_checksum, ipv4_start, ipv6_start, is_ipv4, tcp_start};
use crate::sums::replace;
use tcp_segment::{Datagram, set_checksum};

/// How many bytes a TCP header has without options (RFC 9293, section 3.1).
const TCP_HEADER: usize = 20;

/// Where the checksum stands in a TCP header (RFC 9293, section 3.1).
const CHECKSUM: usize = 16;

/// Where the addresses begin in an IPv4 header (RFC 791, section 3.1).
const V4_ADDRESSES: usize = 12;

/// Where the addresses begin in an IPv6 header (RFC 8200, section 3).
const V6_ADDRESSES: usize = 8;

/// Writes an IP header over so many TCP bytes: its lengths and, of IPv4, its checksum are made anew.
fn put_ip(out: &mut [u8], header: &[u8], tcp_length: usize) -> usize
    requires least { 20 ≤ length header.now }
    requires six { (slice_index header.now 0 / 16 == 4) ≡ false → 40 ≤ length header.now }
    requires most { length header.now ≤ 60 }
    requires whole { length header.now + tcp_length < 65536 + 40 }
    requires told { (slice_index header.now 0 / 16 == 4) ≡ true → length header.now + tcp_length < 65536 }
    requires room { length header.now ≤ length out.old }
    ensures end { result ≡ length header.now }
    ensures front { take result out.new ≡ ip_again header.now tcp_length }
    ensures rest { (n : ℕ) → result ≤ n → drop n out.new ≡ drop n out.old }
{
    if is_ipv4(header) {
        let total = (header.len() + tcp_length) as u16;
        let behind = &header[V4_ADDRESSES..];
        let checksum = ipv4_checksum(header, total, behind);
        let at = put(out, 0, &ipv4_start(header, total, checksum));
        put(out, at, behind)
    } else {
        let at = put(out, 0, &ipv6_start(header, tcp_length as u16));
        put(out, at, &header[V6_ADDRESSES..])
    }
}

/// How many bytes the IP header of a datagram says that there are, once these options stand in place of
/// its own. The bytes are those that the datagram was read from.
pub fn length_told(bytes: &[u8], datagram: &Datagram<'_>, area: &[u8]) -> usize
    requires read { reading bytes.now ≡ Read datagram.now }
    requires most { length area.now ≤ 40 }
    ensures { result ≡ length_in_header datagram.now.ip (with_area datagram.now area.now) }
{
    let size = TCP_HEADER + area.len() + datagram.payload().len();
    if is_ipv4(bytes) {
        header_length(bytes) + size
    } else {
        size
    }
}

/// The least bytes of the headers of IP and TCP of a datagram, which was read from these bytes.
pub fn least_headers(bytes: &[u8], datagram: &Datagram<'_>) -> u16
    requires { reading bytes.now ≡ Read datagram.now }
    ensures { result ≡ headers_length datagram.now.ip }
{
    if is_ipv4(bytes) { 40 } else { 60 }
}

/// Lays a datagram out with these options in place of its own: its lengths and, of IPv4, the checksum
/// of its IP header are made anew, and all else stays, its TCP checksum too. It stands in front of
/// the buffer, what is behind it stays, and its length is given.
///
/// The bytes are those that the datagram was read from. It has at most 40 bytes of options, no more
/// bytes than its IP header can say, and room in the buffer.
pub fn lay_out(out: &mut [u8], bytes: &[u8], datagram: &Datagram<'_>, area: &[u8]) -> usize
    requires read { reading bytes.now ≡ Read datagram.now }
    requires most { length area.now ≤ 40 }
    requires whole { length_in_header datagram.now.ip (with_area datagram.now area.now) ≤ 65535 }
    requires room { length (spell datagram.now) + length area.now ≤ length out.old + length datagram.now.area }
    ensures end { result ≡ length (spell (laid datagram.now area.now)) }
    ensures laid { out.new ≡ spell (laid datagram.now area.now) ++ drop result out.old }
{
    let header = header_length(bytes);
    let head = tcp_start(datagram.header(), area.len());
    let payload = datagram.payload();
    let size = head.len() + area.len() + payload.len();
    let at = put_ip(out, &bytes[..header], size);
    let at = put(out, at, &head);
    let at = put(out, at, area);
    put(out, at, payload)
}

/// Lays a datagram out with these options in place of its own, as `lay_out` does, and sets its TCP
/// checksum.
pub fn relay(out: &mut [u8], bytes: &[u8], datagram: &Datagram<'_>, area: &[u8]) -> usize
    requires read { reading bytes.now ≡ Read datagram.now }
    requires most { length area.now ≤ 40 }
    requires whole { length_in_header datagram.now.ip (with_area datagram.now area.now) ≤ 65535 }
    requires room { length (spell datagram.now) + length area.now ≤ length out.old + length datagram.now.area }
    ensures end { result ≡ length (spell (relaid datagram.now area.now)) }
    ensures relaid { out.new ≡ spell (relaid datagram.now area.now) ++ drop result out.old }
{
    let end = lay_out(out, bytes, datagram, area);
    set_checksum(out, header_length(bytes), end);
    end
}

/// Lays a datagram out with these options in place of its own, as `relay` does; a TCP checksum of 0000
/// stands there as ffff, which is the same number.
pub fn relay_sent(out: &mut [u8], bytes: &[u8], datagram: &Datagram<'_>, area: &[u8]) -> usize
    requires read { reading bytes.now ≡ Read datagram.now }
    requires most { length area.now ≤ 40 }
    requires whole { length_in_header datagram.now.ip (with_area datagram.now area.now) ≤ 65535 }
    requires room { length (spell datagram.now) + length area.now ≤ length out.old + length datagram.now.area }
    ensures end { result ≡ length (spell (as_sent (relaid datagram.now area.now))) }
    ensures sent { out.new ≡ spell (as_sent (relaid datagram.now area.now)) ++ drop result out.old }
{
    let end = relay(out, bytes, datagram, area);
    let header = header_length(bytes);
    replace(out, header + CHECKSUM);
    end
}
