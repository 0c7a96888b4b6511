//! The MAC of a segment.
ghost use Rattle.std.specs.Prelude.{◌≡◌, length};
ghost use Rattle.book_base.specs.Algorithms.{mac_length_of};
ghost use Rattle.book_base.specs.declared.algorithm.Algorithm.TheVariants.{AesCmac};
ghost use Rattle.book_segments.specs.Options.{One, find_ao};
ghost use Rattle.tcp_segment.specs.Views.{view_ao};
ghost use Rattle.ao_mac.specs.Macs.{HasAo, IsMacOf};

use crate::front::Front;
use crate::hasher::finish;
use crate::mac_bytes::MacBytes;
use ao_kdf::TrafficKey;
use book_base::Algorithm;
use tcp_segment::{AoFound, AoOption, Datagram};

/// The MAC of a segment whose TCP-AO option was found, under a traffic key (RFC 5925, section 5.1;
/// RFC 5926, section 3.2).
///
/// `sne` is the sequence number extension, and `ao` the one TCP-AO option of the segment, which has
/// none of TCP MD5; what stands in its MAC field doesn't count. With `with_options` all options are
/// covered, else the TCP-AO option alone. AES-CMAC takes keys of 16 bytes alone.
pub fn mac_over(
    key: &TrafficKey,
    alg: Algorithm,
    sne: u32,
    datagram: &Datagram<'_>,
    ao: AoOption<'_>,
    with_options: bool,
) -> MacBytes
    requires found { find_ao datagram.now.area ≡ One (view_ao ao) }
    requires key { alg ≡ AesCmac → length key.now ≡ 16 }
    ensures mac { IsMacOf result alg key.now sne datagram.now with_options }
    ensures length { length result ≡ mac_length_of alg }
{
    let mut hasher = key.hasher(alg);
    hasher.feed(Front::of(sne, datagram, ao, with_options).as_slice());
    hasher.feed(datagram.payload());
    finish(hasher)
}

/// The MAC of a segment under a traffic key: its one TCP-AO option is looked for. All else is as for
/// `mac_over`.
pub fn mac(
    key: &TrafficKey,
    alg: Algorithm,
    sne: u32,
    datagram: &Datagram<'_>,
    with_options: bool,
) -> MacBytes
    requires one { HasAo datagram.now }
    requires key { alg ≡ AesCmac → length key.now ≡ 16 }
    ensures mac { IsMacOf result alg key.now sne datagram.now with_options }
    ensures length { length result ≡ mac_length_of alg }
{
    match datagram.options().find_ao() {
        AoFound::One(ao) => mac_over(key, alg, sne, datagram, ao, with_options),
        _ => unreachable!(),
    }
}
