//! Changes as text.
ghost use Rattle.std.specs.Prelude.{◌≡◌, ◌++◌, ◌∷◌, [], OnOk, codes, decimal};
ghost use Rattle.std.specs.List.{flat_map};
ghost use Rattle.book_lines.specs.Texts.{spaced};
ghost use Rattle.book_why.specs.Changes.{table_at};
ghost use Rattle.book_why.specs.ChangeTexts.{change_details, change_name, lines_of_passing, node_name, options_text};
ghost use Rattle.book_why.specs.ChangeTexts.{passing_line};
ghost use Rattle.scope_why.specs.MacsViews.{both_view, suspect_view};

use crate::suspect::{BothTables, Suspect};
use book_why::{Change, IsnPair, SegmentNode};
use std::alloc::AllocError;
use text_lines::{push_field, push_newline, push_number, push_text};

fn options_name(with_options: bool) -> &'static [u8]
    ensures { result.now ≡ options_text with_options }
{
    if with_options {
        b"options"
    } else {
        b"no-options"
    }
}

/// Puts a space and whether the MAC covers the options behind `out`.
pub fn push_options_text(out: &mut Vec<u8>, with_options: bool) -> Result<(), AllocError>
    ensures { OnOk result (out.new.items ≡ out.old.items ++ 32 ∷ options_text with_options) }
{
    push_text(out, options_name(with_options))
}

fn name_at<'a>(both: &BothTables<'a>, node: SegmentNode) -> &'a [u8]
    ensures { result.now ≡ node_name (table_at (both_view both.now) node) }
{
    match node {
        SegmentNode::Receiver => both.receiver.name(),
        SegmentNode::Sender => match both.sender {
            Some(table) => table.name(),
            None => b"?",
        },
    }
}

fn change_name(change: Change) -> &'static [u8]
    ensures { result.now ≡ change_name change }
{
    match change {
        Change::AnotherRow(_, _) => b"another row:",
        Change::OtherFlag => b"the other option flag:",
        Change::OtherAlgorithm(_) => b"the other algorithm:",
        Change::CutSha256 => b"the other algorithm: HMAC-SHA-256 cut to 96 bits",
        Change::KeyAsText => b"the key's hexadecimal digits as the key",
        Change::KeyAsUpperText => b"the key's hexadecimal digits in upper case as the key",
        Change::KeyWithNewline => b"a newline behind the key",
        Change::KeyAsTextWithNewline => b"the key's hexadecimal digits and a newline as the key",
        Change::KeyPadded(_) => b"the key filled with zeros to",
        Change::KeyTrimmed => b"the key without the zeros at its end",
        Change::LengthInBytes => b"the output length in bytes",
        Change::OtherDirection => b"source and destination exchanged in the context",
        Change::SocketsExchanged => b"the sockets alone exchanged in the context",
        Change::IsnsExchanged => b"the initial sequence numbers exchanged in the context",
        Change::NoDestinationIsn => b"a destination's initial sequence number of 0 in the context",
        Change::OtherConnection(_) => {
            b"the initial sequence numbers of another connection on these sockets:"
        }
        Change::LapMore => b"the extension one more",
        Change::LapLess => b"the extension one less",
        Change::ChecksumKept => b"the checksum not zeroed in the MAC's input",
        Change::MacKept => b"the MAC not zeroed in the MAC's input",
        Change::LastBytes => b"the last bytes of the MAC in place of the first",
        Change::NoPseudoHeader => b"no pseudo-header in the MAC's input",
    }
}

fn push_row(out: &mut Vec<u8>, number: u8, name: &[u8]) -> Result<(), AllocError>
    ensures { OnOk result (out.new.items ≡ out.old.items ++ spaced
        (codes "row" ∷ decimal number ∷ codes "of" ∷ name.now ∷ [])) }
{
    push_field(out, b"row", u64::from(number))?;
    push_text(out, b"of")?;
    push_text(out, name)
}

fn push_count(out: &mut Vec<u8>, most: u8) -> Result<(), AllocError>
    ensures { OnOk result (out.new.items ≡ out.old.items ++ spaced (decimal most ∷ codes "bytes" ∷ [])) }
{
    push_number(out, u64::from(most))?;
    push_text(out, b"bytes")
}

fn push_isns(out: &mut Vec<u8>, isns: IsnPair) -> Result<(), AllocError>
    ensures { OnOk result (out.new.items ≡ out.old.items ++ spaced
        (decimal isns.source_isn ∷ decimal isns.destination_isn ∷ [])) }
{
    push_number(out, u64::from(isns.source_isn))?;
    push_number(out, u64::from(isns.destination_isn))
}

fn push_one(out: &mut Vec<u8>, text: &[u8]) -> Result<(), AllocError>
    ensures { OnOk result (out.new.items ≡ out.old.items ++ spaced (text.now ∷ [])) }
{
    push_text(out, text)
}

// What a change names, with a space in front of each text.
fn push_details(
    out: &mut Vec<u8>,
    both: &BothTables<'_>,
    suspect: &Suspect<'_>,
    change: Change,
) -> Result<(), AllocError>
    ensures { OnOk result (out.new.items ≡ out.old.items ++ spaced
        (change_details (both_view both.now) (suspect_view suspect.now) change)) }
{
    match change {
        Change::AnotherRow(node, number) => push_row(out, number, name_at(both, node)),
        Change::OtherFlag => push_one(out, options_name(!suspect.row.with_options())),
        Change::OtherAlgorithm(algorithm) => push_one(out, algorithm.name()),
        Change::KeyPadded(most) => push_count(out, most),
        Change::OtherConnection(isns) => push_isns(out, isns),
        Change::CutSha256 => Ok(()),
        Change::KeyAsText => Ok(()),
        Change::KeyAsUpperText => Ok(()),
        Change::KeyWithNewline => Ok(()),
        Change::KeyAsTextWithNewline => Ok(()),
        Change::KeyTrimmed => Ok(()),
        Change::LengthInBytes => Ok(()),
        Change::OtherDirection => Ok(()),
        Change::SocketsExchanged => Ok(()),
        Change::IsnsExchanged => Ok(()),
        Change::NoDestinationIsn => Ok(()),
        Change::LapMore => Ok(()),
        Change::LapLess => Ok(()),
        Change::ChecksumKept => Ok(()),
        Change::MacKept => Ok(()),
        Change::LastBytes => Ok(()),
        Change::NoPseudoHeader => Ok(()),
    }
}

#[tactic(auto, unfolding(book_why::specs::ChangeTexts::passing_line))]
fn push_line(
    out: &mut Vec<u8>,
    both: &BothTables<'_>,
    suspect: &Suspect<'_>,
    change: Change,
) -> Result<(), AllocError>
    ensures { OnOk result (out.new.items ≡ out.old.items ++ passing_line (both_view both.now)
        (suspect_view suspect.now) change) }
{
    out.extend_from_slice(b"would pass with")?;
    push_text(out, change_name(change))?;
    push_details(out, both, suspect, change)?;
    push_newline(out)
}

fn push_lines(
    out: &mut Vec<u8>,
    both: &BothTables<'_>,
    suspect: &Suspect<'_>,
    passing: &[Change],
) -> Result<(), AllocError>
    ensures { OnOk result (out.new.items ≡ out.old.items ++ flat_map
        (passing_line (both_view both.now) (suspect_view suspect.now)) passing.now) }
{
    for change in passing {
        push_line(out, both, suspect, *change)?;
    }
    Ok(())
}

/// Puts the lines of the changes under which the MAC of a segment is right behind `out`, or that there is
/// none.
pub fn push_passing(
    out: &mut Vec<u8>,
    both: &BothTables<'_>,
    suspect: &Suspect<'_>,
    passing: &[Change],
) -> Result<(), AllocError>
    ensures { OnOk result (out.new.items ≡ out.old.items ++ lines_of_passing (both_view both.now)
        (suspect_view suspect.now) passing.now) }
{
    match passing {
        [] => out.extend_from_slice(b"no single change makes it pass\n"),
        [_, ..] => push_lines(out, both, suspect, passing),
    }
}
