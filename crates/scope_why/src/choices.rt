//! The choices of which a MAC follows.
ghost use Rattle.std.specs.Prelude.{◌≡◌, IfOk};
ghost use Rattle.book_macs.specs.Keys.{key_length};
ghost use Rattle.book_why.specs.Recipes.{right_choices};
ghost use Rattle.scope_why.specs.MacsViews.{choices_view, suspect_view};

use crate::suspect::Suspect;
use book_base::{Algorithm, Socket};
use book_why::MacPart;
use key_table::Row;
use std::alloc::{AllocError, Global};

/// The choices of which a MAC follows: what goes into the key derivation, and what into the MAC (RFC
/// 5925, sections 5.1 and 5.2; RFC 5926, section 3).
#[derive(Drop)]
pub struct MacChoices {
    pub algorithm: Algorithm,
    pub master: Vec<u8>,
    pub source: Socket,
    pub destination: Socket,
    pub source_isn: u32,
    pub destination_isn: u32,
    /// The output length, as the key derivation is told it.
    pub output_length: u16,
    /// The sequence number extension.
    pub extension: u64,
    pub pseudo_header: bool,
    /// What stands in the checksum's place in the input.
    pub checksum: u16,
    pub with_options: bool,
    /// What stands in the MAC's place in the input.
    pub mac_bytes: Vec<u8>,
    pub part: MacPart,
    /// Whether the MAC is cut to 96 bits, whatever the algorithm.
    pub cut: bool,
}

/// How many sequence numbers there are (RFC 9293, section 3.4).
pub(crate) const RING: u64 = 4_294_967_296;

/// The length of a traffic key in bytes.
pub(crate) fn key_length(algorithm: Algorithm) -> u16
    ensures { result ≡ key_length algorithm }
{
    match algorithm {
        Algorithm::HmacSha1 => 20,
        Algorithm::AesCmac => 16,
        Algorithm::HmacSha256 => 32,
    }
}

/// The right choices under a row, but with this algorithm.
pub(crate) fn choices_with(
    alloc: Global,
    algorithm: Algorithm,
    row: &Row,
    suspect: &Suspect<'_>,
) -> Result<MacChoices, AllocError>
    ensures { IfOk result (λ m. choices_view m ≡ right_choices (record (row.now) { algorithm = algorithm })
        (suspect_view suspect.now)) }
{
    let master = row.master().to_vec(alloc)?;
    let mac_bytes = vec![in alloc; 0u8; suspect.ao.mac.len()]?;
    Ok(MacChoices {
        algorithm,
        master,
        source: suspect.datagram.source(),
        destination: suspect.datagram.destination(),
        source_isn: suspect.source_isn,
        destination_isn: suspect.destination_isn,
        output_length: 8 * key_length(algorithm),
        extension: suspect.number / RING,
        pseudo_header: true,
        checksum: 0,
        with_options: row.with_options(),
        mac_bytes,
        part: MacPart::First,
        cut: false,
    })
}

/// The right choices under a row: the length in bits, the checksum and the MAC zero (RFC 5925, sections
/// 5.1 and 5.2; RFC 5926, section 3.1).
pub fn right_choices(
    alloc: Global,
    row: &Row,
    suspect: &Suspect<'_>,
) -> Result<MacChoices, AllocError>
    ensures { IfOk result (λ m. choices_view m ≡ right_choices row.now (suspect_view suspect.now)) }
{
    match choices_with(alloc, row.algorithm(), row, suspect) {
        Ok(choices) => Ok(choices),
        Err(error) => Err(error),
    }
}
