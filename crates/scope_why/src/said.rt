//! The line of what the check says.
ghost use Rattle.std.specs.Prelude.{◌≡◌, ◌++◌, ◌∷◌, [], OnOk, codes, decimal};
ghost use Rattle.book_cmd_check.specs.Captures.{Saying, saying_texts};
ghost use Rattle.book_lines.specs.Texts.{line_text, spaced};
ghost use Rattle.book_link.specs.Reports.{verdict_text};
ghost use Rattle.capture_check.specs.declared.answer.CheckLine.TheVariants as line;
ghost use Rattle.capture_check.specs.Answers.{Says, answer_texts, checksum_texts, verdict_texts};

use ao_base::push_decimal;
use book_cmd_check::Checksum;
use book_endpoint::{Passed, Refusal};
use book_segments::DatagramFault;
use capture_check::CheckLine;
use segment_words::{push_checksum, push_fault, verdict_word};
use std::alloc::AllocError;
use text_lines::push_newline;

// What is said of the checksum, and the line's end.
fn push_end(out: &mut Vec<u8>, checksum: Checksum) -> Result<(), AllocError>
    ensures { OnOk result (out.new.items ≡ out.old.items ++ (spaced (checksum_texts checksum) ++ 10 ∷ [])) }
{
    push_checksum(out, checksum)?;
    push_newline(out)
}

fn push_pass(out: &mut Vec<u8>, passed: &Passed, checksum: Checksum) -> Result<(), AllocError>
    ensures { OnOk result (out.new.items ≡ out.old.items ++ line_text
        (codes "pass" ∷ codes "row" ∷ decimal passed.now.row ∷ codes "number" ∷ decimal passed.now.number
        ∷ checksum_texts checksum)) }
{
    out.extend_from_slice(b"pass row ")?;
    push_decimal(out, u64::from(passed.row))?;
    out.extend_from_slice(b" number ")?;
    push_decimal(out, passed.number)?;
    push_end(out, checksum)
}

fn push_refused(out: &mut Vec<u8>, why: Refusal, checksum: Checksum) -> Result<(), AllocError>
    ensures { OnOk result (out.new.items ≡ out.old.items ++ line_text
        (codes "refused" ∷ verdict_text why ∷ checksum_texts checksum)) }
{
    out.extend_from_slice(b"refused ")?;
    out.extend_from_slice(verdict_word(why))?;
    push_end(out, checksum)
}

fn push_verdict(
    out: &mut Vec<u8>,
    verdict: &Result<Passed, Refusal>,
    checksum: Checksum,
) -> Result<(), AllocError>
    ensures { OnOk result (out.new.items ≡ out.old.items ++ line_text
        (verdict_texts verdict.now ++ checksum_texts checksum)) }
{
    match verdict {
        Ok(passed) => push_pass(out, passed, checksum),
        Err(why) => push_refused(out, *why, checksum),
    }
}

fn push_bad(out: &mut Vec<u8>, fault: DatagramFault) -> Result<(), AllocError>
    ensures { OnOk result (out.new.items ≡ out.old.items ++ line_text (answer_texts (line.Bad fault))) }
{
    out.extend_from_slice(b"bad")?;
    push_fault(out, fault)?;
    push_newline(out)
}

fn push_full(out: &mut Vec<u8>, checksum: Checksum) -> Result<(), AllocError>
    ensures { OnOk result (out.new.items ≡ out.old.items ++ line_text (codes "full" ∷ checksum_texts checksum)) }
{
    out.extend_from_slice(b"full")?;
    push_end(out, checksum)
}

fn push_answer(out: &mut Vec<u8>, line: &CheckLine) -> Result<(), AllocError>
    ensures { OnOk result (out.new.items ≡ out.old.items ++ line_text (answer_texts line.now)) }
{
    match line {
        CheckLine::Bad(fault) => push_bad(out, *fault),
        CheckLine::UnknownNode => out.extend_from_slice(b"unknown-node\n"),
        CheckLine::Verdict(verdict, checksum) => push_verdict(out, verdict, *checksum),
        CheckLine::Full(checksum) => push_full(out, *checksum),
    }
}

/// Puts the line of what is said of a segment behind `out`. Where memory runs out a part of it may stand there.
pub(crate) fn push_said(out: &mut Vec<u8>, line: &CheckLine) -> Result<(), AllocError>
    ensures { (s : Saying) → Says line.now s
        → OnOk result (out.new.items ≡ out.old.items ++ line_text (saying_texts s)) }
{
    push_answer(out, line)
}
