//! A datagram is copied, so that what goes on can be written in its place.
ghost use Rattle.std.specs.Prelude.{◌≡◌, ◌≤◌, length, take, IfOk, IfErr};
ghost use Rattle.book_segments.specs.Segments.{Bad, reading};

use book_segments::DatagramFault;
use tcp_segment::read_datagram;

/// The most bytes of a datagram: a header of IPv6 and 65,535 more (RFC 8200, section 3).
pub(crate) const MOST_BYTES: usize = 65_575;

/// The datagram that a prefix of the bytes is stands in front of the copy, and its length is given; or
/// why there is none.
pub(crate) fn copy_datagram(bytes: &[u8], copy: &mut [u8]) -> Result<usize, DatagramFault>
    requires { length copy.old ≡ 65575 }
    ensures within { IfOk result (λ n. n ≤ length bytes.now) }
    ensures fits { IfOk result (λ n. n ≤ length copy.new) }
    ensures read { IfOk result (λ n. reading (take n copy.new) ≡ reading bytes.now) }
    ensures fault { IfErr result (λ why. reading bytes.now ≡ Bad why) }
{
    let datagram = match read_datagram(bytes) {
        Err(fault) => return Err(fault),
        Ok(datagram) => datagram,
    };
    let whole = datagram.length();
    copy[..whole].copy_from_slice(&bytes[..whole]);
    Ok(whole)
}
