//! The line that an answer is printed as.
ghost use Rattle.std.specs.Prelude.{◌≡◌, ◌++◌, ◌∷◌, [], OnOk, codes, decimal};
ghost use Rattle.book_link.specs.Reports.{verdict_text};
ghost use Rattle.book_lines.specs.Texts.{numbered_text, spaced};
ghost use Rattle.book_cmd_check.specs.Captures.{Saying, saying_texts};
ghost use Rattle.book_cmd_check.specs.Captures as book;
ghost use Rattle.capture_check.specs.Answers.{Says, answer_texts, verdict_texts};

use crate::answer::CheckLine;
use ao_base::push_decimal;
use book_endpoint::{Passed, Refusal};
use segment_words::{push_checksum, push_fault, verdict_word};
use std::alloc::AllocError;
use text_lines::{push_field, push_newline, push_text};

fn push_pass(out: &mut Vec<u8>, passed: &Passed) -> Result<(), AllocError>
    ensures { OnOk result (out.new.items ≡ out.old.items ++ spaced
        (codes "pass" ∷ codes "row" ∷ decimal passed.now.row ∷ codes "number" ∷ decimal passed.now.number ∷ [])) }
{
    push_text(out, b"pass")?;
    push_field(out, b"row", u64::from(passed.row))?;
    push_field(out, b"number", passed.number)
}

fn push_verdict(out: &mut Vec<u8>, verdict: &Result<Passed, Refusal>) -> Result<(), AllocError>
    ensures { OnOk result (out.new.items ≡ out.old.items ++ spaced (verdict_texts verdict.now)) }
{
    match verdict {
        Ok(passed) => push_pass(out, passed),
        Err(why) => push_refused(out, *why),
    }
}

fn push_refused(out: &mut Vec<u8>, why: Refusal) -> Result<(), AllocError>
    ensures { OnOk result (out.new.items ≡ out.old.items ++ spaced (codes "refused" ∷ verdict_text why ∷ [])) }
{
    push_text(out, b"refused")?;
    push_text(out, verdict_word(why))
}

fn push_answer(out: &mut Vec<u8>, line: &CheckLine) -> Result<(), AllocError>
    ensures { OnOk result (out.new.items ≡ out.old.items ++ spaced (answer_texts line.now)) }
{
    match line {
        CheckLine::Bad(fault) => {
            push_text(out, b"bad")?;
            push_fault(out, *fault)
        }
        CheckLine::UnknownNode => push_text(out, b"unknown-node"),
        CheckLine::Verdict(verdict, checksum) => {
            push_verdict(out, verdict)?;
            push_checksum(out, *checksum)
        }
        CheckLine::Full(checksum) => {
            push_text(out, b"full")?;
            push_checksum(out, *checksum)
        }
    }
}

/// Puts the line of an answer behind `out`: the number of the line that the segment was stored in,
/// and what is said of the segment. Where memory runs out, a part of it may stand there.
pub fn push_check_line(out: &mut Vec<u8>, number: u64, line: &CheckLine) -> Result<(), AllocError>
    ensures { (s : Saying) → Says line.now s
        → OnOk result (out.new.items ≡ out.old.items ++ numbered_text number (saying_texts s)) }
{
    push_decimal(out, number)?;
    push_answer(out, line)?;
    push_newline(out)
}

impl CheckLine {
    /// Whether the segment passed, whatever its checksum.
    pub fn is_pass(&self) -> bool
        ensures { (s : Saying) → Says self.now s → result ≡ book.is_pass s }
    {
        matches!(self, CheckLine::Verdict(Ok(_), _))
    }
}
