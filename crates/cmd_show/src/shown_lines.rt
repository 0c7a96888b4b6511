//! Datagrams shown as text.
ghost use Rattle.std.specs.Prelude.{◌≡◌, ◌<◌, ◌↔◌, ◌++◌, IsErrOf, OnOk, length, false};
ghost use Rattle.book_base.specs.Lines.{lines_of};
ghost use Rattle.book_lines.specs.Lines.{most_lines};
ghost use Rattle.book_lines.specs.Said.{at_number, said_by};
ghost use Rattle.text_lines.specs.Readings.{Answers, Tells};
ghost use Rattle.book_answer.specs.Answers.{done, if_read};
ghost use Rattle.command_report.specs.Reports.{Reports};
ghost use Rattle.cmd_show.specs.Loops.{shown_after, shown_from};
ghost use Rattle.book_cmd_check.specs.Show.{bytes_of_line, show_of, shown_line};

use crate::datagram_text::push_reading;
use ao_base::push_decimal;
use book_base::Bytes;
use book_lines::TextFault;
use command_report::{Report, Stop};
use std::alloc::{AllocError, Global};
use text_lines::{LineWords, Saying, SayingLines, WordProblem, count_lines, push_newline};

#[tactic(auto, unfolding(book_cmd_check::specs::Show::bytes_of_line))]
fn line_bytes(alloc: Global, words: &mut LineWords) -> Result<Bytes, WordProblem>
    ensures { Tells result (bytes_of_line words.old) }
{
    let bytes = words.hex(alloc)?;
    words.nothing()?;
    Ok(bytes)
}

fn bytes_in(alloc: Global, mut line: Saying) -> Result<Bytes, TextFault>
    ensures { Answers result (at_number line.entry.number (bytes_of_line line.entry.words)) }
{
    line_bytes(alloc, &mut line.words).map_err(|refusal| refusal.at(line.number))
}

#[tactic(auto, unfolding(book_cmd_check::specs::Show::shown_line))]
fn push_shown(alloc: Global, out: &mut Vec<u8>, number: u32, bytes: &[u8]) -> Result<(), AllocError>
    ensures { OnOk result (out.new.items ≡ out.old.items ++ shown_line
        (record { number = number; value = bytes.now })) }
{
    push_decimal(out, u64::from(number))?;
    push_reading(alloc, out, bytes)?;
    push_newline(out)
}

fn push_lines(alloc: Global, out: &mut Vec<u8>, lines: &mut SayingLines) -> Result<(), TextFault>
    ensures { Answers (shown_after result out.new.items) (shown_from out.old.items (said_by bytes_of_line lines.old)) }
{
    while let Some(line) = lines.next() {
        let number = line.number;
        let bytes = bytes_in(alloc, line)?;
        push_shown(alloc, out, number, bytes.as_slice())?;
    }
    Ok(())
}

/// Shows each datagram of a text of lines, which hold one each in hexadecimal, of any length.
///
/// A line of the answer has the number of its line and `bad` with the first of the nine faults, or
/// the fields of the datagram that a prefix of the bytes is: family, sender, receiver, numbers, flags
/// in hexadecimal, whether the TCP checksum is right, and the options in order.
///
/// `Ok` exactly where each line that says something is hexadecimal. `TooManyLines` exactly where the
/// text has more than 20,000 lines; else `Line` is the first faulty line, counted from 1 among all
/// lines, with the kind of its first faulty word. `Memory` only for want of memory.
#[tactic(auto, unfolding(book_cmd_check::specs::Show::show_of, book_lines::specs::Said::said_in))]
pub(crate) fn show(alloc: Global, text: &[u8]) -> Result<Bytes, TextFault>
    ensures text { Answers result (show_of text.now) }
    ensures too_many { IsErrOf result TextFault.TooManyLines ↔ (most_lines < length (lines_of text.now)) }
{
    let _count = count_lines(text)?;
    let mut out = Vec::new(alloc);
    push_lines(alloc, &mut out, &mut SayingLines::new(text))?;
    Ok(Bytes::from_vec(out))
}

/// The answer of `show`: what `show` gives for the input, in which nothing is amiss, or its fault.
#[tactic(auto, using(command_report::proofs::Reporting::fails_stops, command_report::proofs::Reporting::many_stop))]
pub fn answer_show(alloc: Global, input: &[u8]) -> Result<Report, Stop>
    ensures answer { Reports result (if_read (done false) (show_of input.now)) }
    ensures too_many { IsErrOf result (Stop.Input TextFault.TooManyLines) ↔ (most_lines < length (lines_of input.now)) }
{
    let text = show(alloc, input)?;
    Ok(Report {
        text,
        is_amiss: false,
    })
}
