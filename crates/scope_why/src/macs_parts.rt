//! The parts of the input of a segment's MAC, in front of the payload.
ghost use Rattle.std.specs.Prelude.{◌≡◌, ◌++◌, OnOk};
ghost use Rattle.book_segments.specs.Options.{One, find_ao};
ghost use Rattle.book_why.specs.MacTexts.{extension_part, header_part, options_part, pseudo_part};
ghost use Rattle.tcp_segment.specs.Views.{view_ao};
ghost use Rattle.scope_why.specs.MacsViews.{suspect_view};

use crate::choices::RING;
use crate::macs_front::{push_covered, push_four, push_header, push_pseudo};
use crate::suspect::Suspect;
use std::alloc::{AllocError, Global};

/// Puts the extension in the input of a segment's MAC behind `out`, four bytes (RFC 5925, section 5.1).
#[tactic(auto, unfolding(book_why::specs::MacTexts::extension_part))]
pub fn push_extension_part(out: &mut Vec<u8>, suspect: &Suspect<'_>) -> Result<(), AllocError>
    ensures { OnOk result (out.new.items ≡ out.old.items ++ extension_part (suspect_view suspect.now)) }
{
    push_four(out, suspect.number / RING)
}

/// Puts the pseudo-header in the input of a segment's MAC behind `out` (RFC 5925, section 5.1).
#[tactic(auto, unfolding(book_why::specs::MacTexts::pseudo_part))]
pub fn push_pseudo_part(out: &mut Vec<u8>, suspect: &Suspect<'_>) -> Result<(), AllocError>
    ensures { OnOk result (out.new.items ≡ out.old.items ++ pseudo_part (suspect_view suspect.now)) }
{
    push_pseudo(out, suspect.datagram)
}

/// Puts the TCP header in the input of a segment's MAC behind `out`, its checksum zero (RFC 5925, section 5.1).
#[tactic(auto, unfolding(book_why::specs::MacTexts::header_part))]
pub fn push_header_part(out: &mut Vec<u8>, suspect: &Suspect<'_>) -> Result<(), AllocError>
    ensures { OnOk result (out.new.items ≡ out.old.items ++ header_part (suspect_view suspect.now)) }
{
    push_header(out, suspect.datagram, 0)
}

/// Puts the options in the input of a segment's MAC behind `out`, the MAC zero (RFC 5925, section 5.1).
#[tactic(auto, unfolding(book_why::specs::MacTexts::options_part))]
pub fn push_options_part(
    alloc: Global,
    out: &mut Vec<u8>,
    suspect: &Suspect<'_>,
) -> Result<(), AllocError>
    requires { find_ao suspect.now.datagram.now.area ≡ One (view_ao suspect.now.ao) }
    ensures { OnOk result (out.new.items ≡ out.old.items ++ options_part (suspect_view suspect.now)) }
{
    let zeros = vec![in alloc; 0u8; suspect.ao.mac.len()]?;
    let options = suspect.datagram.options();
    push_covered(
        out,
        options.area(),
        suspect.ao,
        suspect.row.with_options(),
        zeros.as_slice(),
    )
}
