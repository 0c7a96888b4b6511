//! The words of a row, put behind one another.
ghost use Rattle.std.specs.Prelude.{◌≡◌, ◌++◌, ◌∷◌, [], OnOk, decimal};
ghost use Rattle.book_lines.specs.Texts.{spaced};
ghost use Rattle.law_scripts.specs.Printed.{direction_text, flag_text, row_texts, use_texts};

use book_keys::{Direction, Lifetime, NewRow};
use std::alloc::AllocError;
use text_lines::{push_bytes, push_number, push_text};

/// Whether TCP options are under the MAC (RFC 5925, section 3.1).
fn flag(with_options: bool) -> &'static [u8]
    ensures { result.now ≡ flag_text with_options }
{
    if with_options {
        b"options"
    } else {
        b"no-options"
    }
}

/// The word of a Direction (RFC 7210, section 2).
fn name_of(direction: Direction) -> &'static [u8]
    ensures { result.now ≡ direction_text direction }
{
    match direction {
        Direction::Receive => b"in",
        Direction::Send => b"out",
        Direction::Both => b"both",
        Direction::Disabled => b"disabled",
    }
}

/// The first and the last second of a lifetime.
fn push_lifetime(out: &mut Vec<u8>, lifetime: Lifetime) -> Result<(), AllocError>
    ensures { OnOk result (out.new.items ≡ out.old.items ++ spaced
        (decimal lifetime.first ∷ decimal lifetime.last ∷ [])) }
{
    push_number(out, lifetime.first)?;
    push_number(out, lifetime.last)
}

/// How a row is used, and when, with a space in front of each word.
#[tactic(auto, unfolding(law_scripts::specs::Printed::use_texts))]
fn push_use(out: &mut Vec<u8>, row: &NewRow) -> Result<(), AllocError>
    ensures { OnOk result (out.new.items ≡ out.old.items ++ spaced (use_texts row.now)) }
{
    push_text(out, flag(row.with_options))?;
    push_text(out, name_of(row.direction))?;
    push_lifetime(out, row.sending)?;
    push_lifetime(out, row.accepting)
}

/// The words of a row, with a space in front of each.
#[tactic(auto, unfolding(law_scripts::specs::Printed::row_texts))]
pub(crate) fn push_row(out: &mut Vec<u8>, row: &NewRow) -> Result<(), AllocError>
    ensures { OnOk result (out.new.items ≡ out.old.items ++ spaced (row_texts row.now)) }
{
    push_number(out, u64::from(row.recv_id))?;
    push_number(out, u64::from(row.send_id))?;
    push_text(out, row.algorithm.name())?;
    push_bytes(out, row.master.as_slice())?;
    push_use(out, row)
}
