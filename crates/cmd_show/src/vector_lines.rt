//! Test vectors of the algorithms, verified.
ghost use Rattle.std.specs.Prelude.{if◌then◌else◌, not, ◌≡◌, ◌≤◌, ◌<◌, ◌+◌, ◌↔◌, ◌++◌, IsErrOf, OnOk, length};
ghost use Rattle.book_base.specs.Lines.{lines_of};
ghost use Rattle.book_lines.specs.Lines.{most_lines};
ghost use Rattle.book_lines.specs.Said.{at_number, said_by};
ghost use Rattle.book_lines.specs.Texts.{spaced};
ghost use Rattle.text_lines.specs.Readings.{Answers};
ghost use Rattle.book_answer.specs.Answers.{if_read, verified};
ghost use Rattle.command_report.specs.Reports.{Reports};
ghost use Rattle.cmd_show.specs.Loops.{no_sums, sums_after, sums_from};
ghost use Rattle.book_cmd_check.specs.Vectors.{vector_of};
ghost use Rattle.book_cmd_check.specs.Verified.{agrees, totals_line, vectors_of, verdict_line, verdict_texts};

use crate::vector::{Vector, read_vector};
use ao_base::push_decimal;
use book_base::Bytes;
use book_cmd_check::Verified;
use book_lines::TextFault;
use command_report::{Report, Stop};
use std::alloc::{AllocError, Global};
use text_lines::{
    Saying, SayingLines, count_lines, push_bytes, push_field, push_newline, push_number, push_text,
};

/// How many vectors there are, and how many of them differ.
#[derive(Clone, Copy)]
struct Totals {
    count: u32,
    differing: u32,
}

fn vector_in(alloc: Global, mut line: Saying) -> Result<Vector, TextFault>
    ensures { Answers result (at_number line.entry.number (vector_of line.entry.words)) }
{
    read_vector(alloc, &mut line.words).map_err(|refusal| refusal.at(line.number))
}

fn agrees(vector: &Vector) -> bool
    ensures { result ≡ agrees vector.now }
{
    vector.computed.as_slice() == vector.expected.as_slice()
}

fn push_verdict(out: &mut Vec<u8>, vector: &Vector) -> Result<(), AllocError>
    ensures { OnOk result (out.new.items ≡ out.old.items ++ spaced (verdict_texts vector.now)) }
{
    if agrees(vector) {
        push_text(out, b"ok")
    } else {
        push_text(out, b"differs")?;
        push_bytes(out, vector.computed.as_slice())
    }
}

#[tactic(auto, unfolding(book_cmd_check::specs::Verified::verdict_line))]
fn push_line(out: &mut Vec<u8>, number: u32, vector: &Vector) -> Result<(), AllocError>
    ensures { OnOk result (out.new.items ≡ out.old.items ++ verdict_line
        (record { number = number; value = vector.now })) }
{
    push_decimal(out, u64::from(number))?;
    push_verdict(out, vector)?;
    push_newline(out)
}

fn push_totals(out: &mut Vec<u8>, totals: Totals) -> Result<(), AllocError>
    ensures { OnOk result (out.new.items ≡ out.old.items ++ totals_line totals.count totals.differing) }
{
    out.extend_from_slice(b"vectors")?;
    push_number(out, u64::from(totals.count))?;
    push_field(out, b"differing", u64::from(totals.differing))?;
    push_newline(out)
}

fn push_lines(
    alloc: Global,
    out: &mut Vec<u8>,
    lines: &mut SayingLines,
) -> Result<Totals, TextFault>
    requires { length lines.old ≤ most_lines }
    ensures { Answers (sums_after result out.new.items) (sums_from (no_sums out.old.items)
        (said_by vector_of lines.old)) }
{
    let mut totals = Totals {
        count: 0,
        differing: 0,
    };
    while let Some(line) = lines.next() {
        let number = line.number;
        let vector = vector_in(alloc, line)?;
        push_line(out, number, &vector)?;
        totals = one_more(totals, &vector);
    }
    Ok(totals)
}

fn one_more(totals: Totals, vector: &Vector) -> Totals
    requires count { totals.count < most_lines }
    requires differing { totals.differing ≤ totals.count }
    ensures count { result.count ≡ totals.count + 1 }
    ensures differing { result.differing ≡ totals.differing + (if not (agrees vector.now) then 1 else 0) }
    ensures fewer { result.differing ≤ result.count }
{
    let differing = if agrees(vector) {
        totals.differing
    } else {
        totals.differing + 1
    };
    Totals {
        count: totals.count + 1,
        differing,
    }
}

/// Verifies each test vector of a text of lines.
///
/// A line is `hmac KEY MESSAGE OUT` (RFC 2104), `aes KEY BLOCK OUT` (FIPS 197), `cmac KEY MESSAGE
/// OUT` (RFC 4493), `prf KEY MESSAGE OUT` (RFC 4615), `kdf ALGORITHM MASTER CONTEXT OUT` (RFC 5926,
/// section 3.1) or `segment ALGORITHM MASTER SOURCEISN DESTISN EXTENSION options DATAGRAM`, or
/// `no-options` (RFC 5925, section 5.1). The answer has for each its line's number with `ok`, or
/// `differs` with what is computed; last how many vectors there are and how many differ.
///
/// `Ok` exactly where the text is in the grammar. `TooManyLines` exactly where it has more than
/// 20,000 lines; else `Line` is the first faulty line, counted from 1 among all lines, with the kind
/// of its first faulty word. `Memory` only for want of memory.
#[tactic(auto, unfolding(book_cmd_check::specs::Verified::vectors_of, book_lines::specs::Said::said_in))]
pub(crate) fn vectors(alloc: Global, text: &[u8]) -> Result<Verified, TextFault>
    ensures text { Answers result (vectors_of text.now) }
    ensures too_many { IsErrOf result TextFault.TooManyLines ↔ (most_lines < length (lines_of text.now)) }
{
    let _count = count_lines(text)?;
    let mut out = Vec::new(alloc);
    let totals = push_lines(alloc, &mut out, &mut SayingLines::new(text))?;
    push_totals(&mut out, totals)?;
    Ok(Verified {
        text: Bytes::from_vec(out),
        differing: totals.differing,
    })
}

/// The answer of `vectors`: what `vectors` gives for the input, or its fault. One vector that differs is
/// amiss.
#[tactic(auto, using(command_report::proofs::Reporting::fails_stops, command_report::proofs::Reporting::many_stop))]
pub fn answer_vectors(alloc: Global, input: &[u8]) -> Result<Report, Stop>
    ensures answer { Reports result (if_read verified (vectors_of input.now)) }
    ensures too_many { IsErrOf result (Stop.Input TextFault.TooManyLines) ↔ (most_lines < length (lines_of input.now)) }
{
    let told = vectors(alloc, input)?;
    let is_amiss = told.differing != 0;
    Ok(Report {
        text: told.text,
        is_amiss,
    })
}
