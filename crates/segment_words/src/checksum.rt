//! Whether the checksum of a datagram is right.
ghost use Rattle.std.specs.Prelude.{◌≡◌, ◌++◌, ◌∷◌, [], OnOk, codes};
ghost use Rattle.book_lines.specs.Texts.{spaced};
ghost use Rattle.book_cmd_check.specs.DatagramTexts.{checksum_in, checksum_text};

use book_cmd_check::Checksum;
use std::alloc::AllocError;
use tcp_segment::Datagram;
use text_lines::push_text;

/// Whether the TCP checksum of a datagram is right (RFC 9293, section 3.1).
pub fn checksum_in(datagram: &Datagram<'_>) -> Checksum
    ensures { result ≡ checksum_in datagram.now }
{
    if datagram.checksum_ok() {
        Checksum::Good
    } else {
        Checksum::Wrong
    }
}

fn checksum_word(checksum: Checksum) -> &'static [u8]
    ensures { result.now ≡ checksum_text checksum }
{
    match checksum {
        Checksum::Good => b"good",
        Checksum::Wrong => b"wrong",
    }
}

/// Puts the word `checksum` behind `out`, and whether it is right, with a space in front of each. Where memory
/// runs out, a part of it may stand there.
pub fn push_checksum(out: &mut Vec<u8>, checksum: Checksum) -> Result<(), AllocError>
    ensures { OnOk result (out.new.items ≡ out.old.items ++ spaced (codes "checksum" ∷ checksum_text checksum ∷ [])) }
{
    push_text(out, b"checksum")?;
    push_text(out, checksum_word(checksum))
}
