//! The MAC of a segment that is being written.
ghost use Rattle.std.specs.Prelude.{◌≡◌, ℕ, List, length};
ghost use Rattle.book_base.specs.Algorithms.{mac_length_of};
ghost use Rattle.tcp_segment.specs.Drafts.{Drafted, HasMacField, InOneBuffer};
ghost use Rattle.tcp_segment.specs.declared.spelling.Head.{Head};
ghost use Rattle.book_base.specs.declared.algorithm.Algorithm.TheVariants.{AesCmac};
ghost use Rattle.ao_mac.specs.Sealed.{IsSealed};

use crate::macs::mac;
use ao_kdf::TrafficKey;
use book_base::Algorithm;
use tcp_segment::DatagramMut;

/// Puts the MAC of a segment that is being written into its MAC field (RFC 5925, section 5.1).
///
/// `sne` is the sequence number extension. With `with_options` all options are covered, else the
/// TCP-AO option alone. The headers and the payload stay as they are; what stood in the MAC field
/// doesn't count. The field has the algorithm's length; AES-CMAC takes keys of 16 bytes alone.
pub fn seal(
    key: &TrafficKey,
    alg: Algorithm,
    sne: u32,
    datagram: &mut DatagramMut<'_>,
    with_options: bool,
)
    requires field { HasMacField datagram.old (mac_length_of alg) }
    requires key { alg ≡ AesCmac → length key.now ≡ 16 }
    ensures same_buffer { InOneBuffer datagram.old datagram.new }
    ensures sealed { (h : Head) (old payload rest : List ℕ) → Drafted datagram.old h old payload rest
        → IsSealed datagram.new h old payload rest alg key.now sne with_options }
{
    let code = mac(key, alg, sne, &datagram.as_datagram(), with_options);
    datagram.mac_mut().copy_from_slice(code.as_slice());
}
