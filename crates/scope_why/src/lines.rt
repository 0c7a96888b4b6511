//! How the MAC of a segment is made, and under which changes it would be right, as lines.
ghost use Rattle.std.specs.Prelude.{◌≡◌, ◌++◌, ◌∷◌, [], OnOk, codes, decimal, length};
ghost use Rattle.book_lines.specs.Texts.{line_text};
ghost use Rattle.book_segments.specs.Options.{One, find_ao};
ghost use Rattle.book_why.specs.ChangeTexts.{passing_lines};
ghost use Rattle.book_why.specs.Judging.{suspect_context};
ghost use Rattle.book_why.specs.Recipes.{mac_made, recipe_of};
ghost use Rattle.book_why.specs.MacTexts.{agrees_text, computed_line, extension_part, header_part};
ghost use Rattle.book_why.specs.MacTexts.{input_lines, key_line_if, mac_lines, options_part, part_line};
ghost use Rattle.book_why.specs.MacTexts.{pseudo_part};
ghost use Rattle.tcp_segment.specs.Views.{view_ao};
ghost use Rattle.scope_why.specs.MacsViews.{both_view, recipe_view, suspect_view};

use crate::macs_parts::{
    push_extension_part, push_header_part, push_options_part, push_pseudo_part,
};
use crate::passes::{is_same_mac, would_pass};
use crate::recipe::{Recipe, mac_made};
use crate::right::{key_made, right_recipe, suspect_context};
use crate::suspect::{BothTables, Suspect};
use crate::texts::push_passing;
use book_why::IsnPair;
use std::alloc::{AllocError, Global};
use text_lines::{push_bytes, push_newline, push_number, push_text};

fn push_part_line(out: &mut Vec<u8>, name: &[u8], bytes: &[u8]) -> Result<(), AllocError>
    ensures { OnOk result (out.new.items ≡ out.old.items ++ part_line name.now bytes.now) }
{
    out.push(b' ')?;
    push_text(out, name)?;
    push_bytes(out, bytes)?;
    push_newline(out)
}

fn push_extension_line(
    alloc: Global,
    out: &mut Vec<u8>,
    suspect: &Suspect<'_>,
) -> Result<(), AllocError>
    ensures { OnOk result (out.new.items ≡ out.old.items ++ part_line (codes "extension")
        (extension_part (suspect_view suspect.now))) }
{
    let mut part = Vec::new(alloc);
    push_extension_part(&mut part, suspect)?;
    push_part_line(out, b"extension", part.as_slice())
}

fn push_pseudo_line(
    alloc: Global,
    out: &mut Vec<u8>,
    suspect: &Suspect<'_>,
) -> Result<(), AllocError>
    ensures { OnOk result (out.new.items ≡ out.old.items ++ part_line (codes "pseudo-header")
        (pseudo_part (suspect_view suspect.now))) }
{
    let mut part = Vec::new(alloc);
    push_pseudo_part(&mut part, suspect)?;
    push_part_line(out, b"pseudo-header", part.as_slice())
}

fn push_header_line(
    alloc: Global,
    out: &mut Vec<u8>,
    suspect: &Suspect<'_>,
) -> Result<(), AllocError>
    ensures { OnOk result (out.new.items ≡ out.old.items ++ part_line (codes "header")
        (header_part (suspect_view suspect.now))) }
{
    let mut part = Vec::new(alloc);
    push_header_part(&mut part, suspect)?;
    push_part_line(out, b"header", part.as_slice())
}

fn push_options_line(
    alloc: Global,
    out: &mut Vec<u8>,
    suspect: &Suspect<'_>,
) -> Result<(), AllocError>
    requires { find_ao suspect.now.datagram.now.area ≡ One (view_ao suspect.now.ao) }
    ensures { OnOk result (out.new.items ≡ out.old.items ++ part_line (codes "options")
        (options_part (suspect_view suspect.now))) }
{
    let mut part = Vec::new(alloc);
    push_options_part(alloc, &mut part, suspect)?;
    push_part_line(out, b"options", part.as_slice())
}

fn push_payload_line(out: &mut Vec<u8>, suspect: &Suspect<'_>) -> Result<(), AllocError>
    ensures { OnOk result (out.new.items ≡ out.old.items ++ line_text
        (codes " " ∷ codes "payload" ∷ decimal (length suspect.now.datagram.now.payload) ∷ codes "bytes" ∷ [])) }
{
    out.extend_from_slice(b"  payload")?;
    push_number(out, suspect.datagram.payload().len() as u64)?;
    out.extend_from_slice(b" bytes\n")
}

// The lines of the parts of the MAC's input.
fn push_input_lines(
    alloc: Global,
    out: &mut Vec<u8>,
    suspect: &Suspect<'_>,
) -> Result<(), AllocError>
    requires { find_ao suspect.now.datagram.now.area ≡ One (view_ao suspect.now.ao) }
    ensures { OnOk result (out.new.items ≡ out.old.items ++ input_lines (suspect_view suspect.now)) }
{
    push_extension_line(alloc, out, suspect)?;
    push_pseudo_line(alloc, out, suspect)?;
    push_header_line(alloc, out, suspect)?;
    push_options_line(alloc, out, suspect)?;
    push_payload_line(out, suspect)?;
    Ok(())
}

// The line of the traffic key, where it is asked for.
fn push_key_line(
    alloc: Global,
    out: &mut Vec<u8>,
    with_key: bool,
    recipe: &Recipe<'_>,
) -> Result<(), AllocError>
    ensures { OnOk result (out.new.items ≡ out.old.items ++ key_line_if with_key (recipe_view recipe.now)) }
{
    if !with_key {
        return Ok(());
    }
    let key = key_made(alloc, recipe)?;
    push_part_line(out, b"traffic key", key.as_slice())
}

fn agrees_text(same: bool) -> &'static [u8]
    ensures { result.now ≡ agrees_text same }
{
    if same { b"agrees" } else { b"differs" }
}

fn push_computed_line(out: &mut Vec<u8>, found: &[u8], computed: &[u8]) -> Result<(), AllocError>
    ensures { OnOk result (out.new.items ≡ out.old.items ++ computed_line found.now computed.now) }
{
    out.extend_from_slice(b"  computed")?;
    push_bytes(out, computed)?;
    push_text(out, agrees_text(is_same_mac(found, computed)))?;
    push_newline(out)
}

fn push_context_line(
    alloc: Global,
    out: &mut Vec<u8>,
    suspect: &Suspect<'_>,
) -> Result<(), AllocError>
    ensures { OnOk result (out.new.items ≡ out.old.items ++ part_line (codes "context")
        (suspect_context (suspect_view suspect.now))) }
{
    let context = suspect_context(alloc, suspect)?;
    push_part_line(out, b"context", context.as_slice())
}

/// Puts the lines of how the MAC of a segment is made behind `out`: the context, where it is asked for the traffic key,
/// which is a secret, the parts of the MAC's input, and the MAC, with whether the segment has it.
#[tactic(auto, unfolding(book_why::specs::MacTexts::mac_lines))]
pub fn push_mac_lines(
    alloc: Global,
    out: &mut Vec<u8>,
    with_key: bool,
    suspect: &Suspect<'_>,
) -> Result<(), AllocError>
    requires { find_ao suspect.now.datagram.now.area ≡ One (view_ao suspect.now.ao) }
    ensures { OnOk result (out.new.items ≡ out.old.items ++ mac_lines with_key (suspect_view suspect.now)) }
{
    let recipe = right_recipe(alloc, suspect)?;
    let computed = mac_made(alloc, &recipe)?;
    push_context_line(alloc, out, suspect)?;
    push_key_line(alloc, out, with_key, &recipe)?;
    push_input_lines(alloc, out, suspect)?;
    push_computed_line(out, suspect.ao.mac, computed.as_slice())
}

/// Puts the lines of the changes under which the MAC of a segment is right behind `out`, or that there is none, where
/// other connections on its sockets had these initial sequence numbers.
pub fn push_passing_lines(
    alloc: Global,
    out: &mut Vec<u8>,
    both: &BothTables<'_>,
    others: &[IsnPair],
    suspect: &Suspect<'_>,
) -> Result<(), AllocError>
    requires { find_ao suspect.now.datagram.now.area ≡ One (view_ao suspect.now.ao) }
    ensures { OnOk result (out.new.items ≡ out.old.items ++ passing_lines (both_view both.now) others.now
        (suspect_view suspect.now)) }
{
    let passing = would_pass(alloc, both, others, suspect)?;
    push_passing(out, both, suspect, passing.as_slice())
}
