//! The head of a picture.
ghost use Rattle.std.specs.Prelude.{◌≡◌, ◌++◌, OnOk};
ghost use Rattle.page_svg.specs.Tags.{head_svg, style_svg};

use crate::tags::push_numbered;
use std::alloc::AllocError;

/// How words and the page look.
#[tactic(auto, unfolding(crate::specs::Tags::style_svg))]
fn push_style(out: &mut Vec<u8>) -> Result<(), AllocError>
    ensures { OnOk result (out.new.items ≡ out.old.items ++ style_svg) }
{
    out.extend_from_slice(
        b"<style>text{stroke:#fff;stroke-width:3px;paint-order:stroke}svg{max-width:100%;",
    )?;
    out.extend_from_slice(b"height:auto;background:#fff}</style>\n")
}

/// Puts the head of a picture 800 wide and of this height behind `out`. An error only for want of memory.
#[tactic(auto, unfolding(crate::specs::Tags::head_svg))]
pub fn push_head(out: &mut Vec<u8>, height: u64) -> Result<(), AllocError>
    ensures { OnOk result (out.new.items ≡ out.old.items ++ head_svg height) }
{
    out.extend_from_slice(b"<svg xmlns=\"http://www.w3.org/2000/svg\" width=\"800\"")?;
    push_numbered(out, b" height=\"", height)?;
    push_numbered(out, b"\" viewBox=\"0 0 800 ", height)?;
    out.extend_from_slice(
        b"\" font-family=\"monospace\" font-size=\"12\" stroke-width=\"1.5\">\n",
    )?;
    push_style(out)?;
    Ok(())
}
