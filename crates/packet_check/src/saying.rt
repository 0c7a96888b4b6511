//! The end of a packet's line: what `check` says of its datagram, or why it has none.
ghost use Rattle.std.specs.Prelude.{◌≡◌, ◌++◌, ◌∷◌, [], OnOk, codes, drop};
ghost use Rattle.book_lines.specs.Texts.{spaced};
ghost use Rattle.book_cmd_check.specs.Captures.{Saying, saying_texts};
ghost use Rattle.book_sessions.specs.OutcomeTexts.{passed_text};
ghost use Rattle.capture_check.specs.Answers.{Says};

use book_sessions::PassedOver;
use capture_check::{CheckLine, push_check_line};
use scope_lines::push_reason;
use segment_words::push_fault_text;
use std::alloc::{AllocError, Global};
use text_lines::{push_newline, push_text};

// The bytes behind the first one.
fn behind_first(bytes: &[u8]) -> &[u8]
    ensures { result.now ≡ drop 1 bytes.now }
{
    match bytes {
        [_, rest @ ..] => rest,
        [] => bytes,
    }
}

/// Puts the line that `check` writes of a datagram behind `out`, but for the number in front of it. Where memory
/// runs out a part of it may stand there.
pub(crate) fn push_said(
    alloc: Global,
    out: &mut Vec<u8>,
    said: &CheckLine,
) -> Result<(), AllocError>
    ensures { (s : Saying) → Says said.now s
        → OnOk result (out.new.items ≡ out.old.items ++ (spaced (saying_texts s) ++ 10 ∷ [])) }
{
    let mut line = Vec::new(alloc);
    push_check_line(&mut line, 0, said)?;
    out.extend_from_slice(behind_first(line.as_slice()))
}

// Puts why a packet is passed over behind `out`.
fn push_passed(out: &mut Vec<u8>, why: PassedOver) -> Result<(), AllocError>
    ensures { OnOk result (out.new.items ≡ out.old.items ++ passed_text why) }
{
    match why {
        PassedOver::NoDatagram(why) => push_reason(out, why),
        PassedOver::NoTime => out.extend_from_slice(b"no time"),
        PassedOver::Faulty(fault) => push_fault_text(out, fault),
    }
}

/// Puts that a packet is passed over, and why, behind `out`. Where memory runs out a part of it may stand there.
pub(crate) fn push_other(out: &mut Vec<u8>, why: PassedOver) -> Result<(), AllocError>
    ensures { OnOk result (out.new.items ≡ out.old.items
        ++ (spaced (codes "other" ∷ passed_text why ∷ []) ++ 10 ∷ [])) }
{
    push_text(out, b"other")?;
    out.push(b' ')?;
    push_passed(out, why)?;
    push_newline(out)
}
