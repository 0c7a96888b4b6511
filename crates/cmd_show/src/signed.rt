//! A datagram with a MAC.
ghost use Rattle.std.specs.Prelude.{◌≡◌, ◌≤◌, ℕ, List, length, Some, None, MatchOption};
ghost use Rattle.book_segments.specs.Options.{Ao, One, find_ao};
ghost use Rattle.ao_mac.specs.Macs.{HasAo};
ghost use Rattle.cmd_show.specs.Signed.{IsMade, IsSigned};
ghost use Rattle.book_cmd_check.specs.Vectors.{signed_of};

use crate::keys::key_of;
use ao_kdf::Context;
use ao_mac::{MacBytes, mac};
use book_base::Algorithm;
use std::marker::Model;
use tcp_segment::{AoFound, Datagram, read_datagram};

/// A datagram with one TCP-AO option, and the MAC in it.
#[derive(Drop)]
pub(crate) struct SignedDatagram<'a> {
    pub(crate) datagram: Datagram<'a>,
    pub(crate) mac: &'a [u8],
}

/// How the MAC of a segment is computed: the key, the two initial sequence numbers, the sequence
/// number extension, and whether all options are covered.
#[derive(Drop)]
pub(crate) struct Making {
    pub(crate) algorithm: Algorithm,
    pub(crate) source_isn: u32,
    pub(crate) dest_isn: u32,
    pub(crate) extension: u32,
    pub(crate) covering: bool,
}

impl Model for Making {
    ghost use Rattle.book_cmd_check.specs.Vectors.{MacMaking as Made};

    ghost Value = { Made };

    ghost view = { λ m. record {
      algorithm = m.algorithm;
      source_isn = m.source_isn;
      dest_isn = m.dest_isn;
      extension = m.extension;
      covering = m.covering;
    } };
}

/// The datagram that a prefix of the bytes is, where it has one TCP-AO option with a MAC of the
/// algorithm's length and none of TCP MD5.
#[tactic(auto, unfolding(book_cmd_check::specs::Vectors::signed_of))]
pub(crate) fn signed(algorithm: Algorithm, bytes: &[u8]) -> Option<SignedDatagram<'_>>
    ensures { MatchOption result (signed_of algorithm bytes.now ≡ None) (λ s. IsSigned algorithm bytes.now s) }
{
    let datagram = match read_datagram(bytes) {
        Ok(datagram) => datagram,
        Err(_) => return None,
    };
    match datagram.options().find_ao() {
        AoFound::One(ao) => {
            if ao.mac.len() == usize::from(algorithm.mac_length()) {
                Some(SignedDatagram {
                    datagram,
                    mac: ao.mac,
                })
            } else {
                None
            }
        }
        AoFound::Absent => None,
        AoFound::Two => None,
        AoFound::WithMd5 => None,
    }
}

/// The MAC of a datagram under its traffic key (RFC 5925, section 5.1).
pub(crate) fn mac_of(master: &[u8], making: &Making, datagram: &Datagram<'_>) -> MacBytes
    requires one { HasAo datagram.now }
    ensures { IsMade master.now making.now datagram.now result }
{
    let context = Context {
        source: datagram.source(),
        destination: datagram.destination(),
        source_isn: making.source_isn,
        dest_isn: making.dest_isn,
    };
    let key = key_of(making.algorithm, master, &context);
    mac(
        &key,
        making.algorithm,
        making.extension,
        datagram,
        making.covering,
    )
}
