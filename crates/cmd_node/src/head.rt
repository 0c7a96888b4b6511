//! The lines in front of a node's file: its title and the node's address.
ghost use Rattle.std.specs.Prelude.{◌≡◌, [], ◌∷◌, codes, IfOk, IfErr};
ghost use Rattle.book_lines.specs.declared.line_kind.LineKind.TheVariants as line_kind;
ghost use Rattle.book_lines.specs.declared.text_fault.TextFault.TheVariants as fault;
ghost use Rattle.book_cmd_link.specs.LinkFiles.{line_in, title_of};
ghost use Rattle.book_cmd_node.specs.NodeRuns.{own_address_of};
ghost use Rattle.law_scripts.specs.Left.{leaves};

use book_base::Address;
use book_lines::{LineKind, TextFault};
use text_lines::{LineWords, Saying, SayingLines};

/// The next line that says something; where it is missing, a fault of the head at the number after
/// all lines.
fn next_line<'a>(lines: &mut SayingLines<'a>, missing: u32) -> Result<Saying<'a>, TextFault>
    ensures next { IfOk result (λ line. lines.old ≡ record { number = line.number; words = line.words } ∷ lines.new) }
    ensures none { IfErr result (λ e. (lines.old ≡ []) × (e ≡ fault.Line missing line_kind.Header)) }
{
    lines
        .next()
        .ok_or(TextFault::Line(missing, LineKind::Header))
}

#[tactic(auto, unfolding(book_cmd_link::specs::LinkFiles::title_of))]
fn title(words: &mut LineWords) -> Result<(), LineKind>
    ensures { result ≡ title_of (codes "aotcp-node") words.old }
{
    words.literal(b"aotcp-node")?;
    words.literal(b"1")?;
    words.nothing()
}

fn address(words: &mut LineWords) -> Result<Address, LineKind>
    ensures { result ≡ own_address_of words.old }
{
    words.literal(b"node")?;
    let address = words.address()?;
    words.nothing()?;
    Ok(address)
}

/// The first line that says something.
#[tactic(auto, unfolding(book_cmd_link::specs::LinkFiles::line_in))]
pub(crate) fn title_line(lines: &mut SayingLines, missing: u32) -> Result<(), TextFault>
    ensures { leaves result lines.new ≡ line_in missing line_kind.Header (title_of (codes "aotcp-node")) lines.old }
{
    let mut line = next_line(lines, missing)?;
    title(&mut line.words).map_err(|_| TextFault::Line(line.number, LineKind::Header))
}

/// The line of the node's address.
#[tactic(auto, unfolding(book_cmd_link::specs::LinkFiles::line_in))]
pub(crate) fn address_line(lines: &mut SayingLines, missing: u32) -> Result<Address, TextFault>
    ensures { leaves result lines.new ≡ line_in missing line_kind.Header own_address_of lines.old }
{
    let mut line = next_line(lines, missing)?;
    address(&mut line.words).map_err(|_| TextFault::Line(line.number, LineKind::Header))
}
