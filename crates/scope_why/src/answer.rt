//! The answer on a packet.
ghost use Rattle.std.specs.Prelude.{◌≡◌, ◌++◌, ◌∷◌, ℕ, [], false, IfOk, List, OnOk, Ok, Err, Some, codes};
ghost use Rattle.std.specs.List.{find};
ghost use Rattle.book_cmd_check.specs.Captures.{Connection, hear_read};
ghost use Rattle.book_keys.specs.Rows.{has_address};
ghost use Rattle.book_lines.specs.Texts.{line_text};
ghost use Rattle.book_scope_texts.specs.Addresses.{usual_address_text};
ghost use Rattle.book_segments.specs.Segments.{Bad, Read, reading};
ghost use Rattle.book_why.specs.Answers.{Behind, no_segment_line, unset_text};
ghost use Rattle.scope_why.specs.Facts.{AreWithin, inquiry_by, reason_by, with_others};
ghost use Rattle.scope_why.specs.Finding.{IsWithin, lines_of_said};
ghost use Rattle.scope_why.specs.Fronts.{StandsBehind, stored_as};
ghost use Rattle.scope_why.specs.Replies.{AnswersBehind, AnswersJudged, SaysWhy, key_file_of};
ghost use Rattle.scope_why.specs.Views.{inquiry_of};

use crate::facts::Facts;
use crate::inquiry::Inquiry;
use crate::others::other_isns;
use crate::question::Question;
use crate::reasons::push_why;
use crate::said::push_said;
use crate::segment_line::{push_no_segment, push_segment_line};
use crate::shown::StoredBytes;
use crate::sight::isns_at;
use ao_base::Steps;
use book_base::Address;
use book_sessions::{GivenIsns, PassedOver};
use book_why::IsnPair;
use capture_check::{CheckLine, Checker};
use key_table::{Table, Tables};
use scope_sessions::{mended, push_host, told_fault};
use std::alloc::{AllocError, Global};
use std::sync::ledger::Ledger;
use tcp_segment::{Datagram, read_datagram};
use text_lines::push_newline;

/// The answer on a packet, and whether it passes.
#[derive(Drop)]
pub(crate) struct Answered {
    pub(crate) text: Vec<u8>,
    pub(crate) passes: bool,
}

fn push_no_node(out: &mut Vec<u8>, address: &Address) -> Result<(), AllocError>
    ensures { OnOk result (out.new.items ≡ out.old.items ++ line_text
        (codes "no node has" ∷ usual_address_text address.now ∷ [])) }
{
    out.extend_from_slice(b"no node has")?;
    push_host(out, address)?;
    push_newline(out)
}

// What an answer speaks of, with these initial sequence numbers of other connections.
fn inquiry_with<'a>(
    facts: &Facts<'a>,
    tables: &'a Tables,
    table: &'a Table,
    others: &'a [IsnPair],
) -> Inquiry<'a>
    ensures inquiry { inquiry_of result ≡ with_others others.now (inquiry_by facts.now tables.now table.now) }
    ensures within { AreWithin facts.now → IsWithin result }
{
    Inquiry {
        table,
        sender: tables.table(&facts.datagram.source().address),
        known: facts.known,
        time: facts.time,
        datagram: facts.datagram,
        others,
        document: facts.document,
        with_key: facts.with_key,
    }
}

// Why the check says this of a segment that goes to the node of this table.
fn push_asked(
    alloc: Global,
    out: &mut Vec<u8>,
    facts: &Facts<'_>,
    tables: &Tables,
    table: &Table,
    line: &CheckLine,
) -> Result<(), AllocError>
    requires { AreWithin facts.now }
    ensures { OnOk result (out.new.items ≡ out.old.items ++ lines_of_said (inquiry_by facts.now tables.now table.now)
        line.now) }
{
    let own = isns_at(&inquiry_with(facts, tables, table, &[]));
    let others = other_isns(alloc, facts.datagram, own, facts.told)?;
    let inquiry = inquiry_with(facts, tables, table, others.as_slice());
    push_why(alloc, out, &inquiry, line)
}

// Why the check says this of a segment.
fn push_reason(
    alloc: Global,
    out: &mut Vec<u8>,
    facts: &Facts<'_>,
    tables: &Tables,
    line: &CheckLine,
) -> Result<(), AllocError>
    requires { AreWithin facts.now }
    ensures { OnOk result (out.new.items ≡ out.old.items
        ++ reason_by facts.now tables.now (find (has_address facts.now.datagram.now.destination.address) tables.now)
        line.now) }
{
    let destination = facts.datagram.destination();
    match tables.table(&destination.address) {
        None => push_no_node(out, &destination.address),
        Some(table) => push_asked(alloc, out, facts, tables, table, line),
    }
}

// What the check says of a segment, and why; whether it passes.
fn push_said_and_why<L: Ledger>(
    checker: &mut Checker,
    told: &[GivenIsns],
    question: &Question<'_>,
    alloc: Global,
    steps: &mut Steps<L>,
    time: u64,
    datagram: &Datagram<'_>,
    out: &mut Vec<u8>,
) -> Result<bool, AllocError>
    ensures { (b : Behind) (number : ℕ) (bytes : List ℕ) → StandsBehind checker.old.entries told.now b
        → reading bytes ≡ Read datagram.now
        → IfOk result (λ passes. SaysWhy (key_file_of question.now checker.old.tables) b question.now.with_key
        (record { number = number; time = time; bytes = bytes }) datagram.now out.old.items out.new.items passes) }
{
    let facts = Facts {
        document: question.document,
        with_key: question.with_key,
        told,
        known: checker.known(datagram.source(), datagram.destination()),
        time,
        datagram,
    };
    let line = checker.hear(alloc, time, datagram, steps)?;
    push_said(out, &line)?;
    push_reason(alloc, out, &facts, checker.tables(), &line)?;
    Ok(line.is_pass())
}

// The answer on a packet that is no segment.
fn answer_other(alloc: Global, number: u64, why: PassedOver) -> Result<Answered, AllocError>
    ensures text { IfOk result (λ a. a.text.items ≡ no_segment_line number why) }
    ensures passes { IfOk result (λ a. a.passes ≡ false) }
{
    let mut text = Vec::new(alloc);
    push_no_segment(&mut text, number, why)?;
    Ok(Answered {
        text,
        passes: false,
    })
}

fn push_unset(out: &mut Vec<u8>, unset: bool) -> Result<(), AllocError>
    ensures { OnOk result (out.new.items ≡ out.old.items ++ unset_text unset) }
{
    if unset {
        out.extend_from_slice(b"ip-checksum wrong\n")
    } else {
        Ok(())
    }
}

// The answer on a segment.
fn answer_segment<L: Ledger>(
    checker: &mut Checker,
    told: &[GivenIsns],
    question: &Question<'_>,
    alloc: Global,
    steps: &mut Steps<L>,
    number: u64,
    unset: bool,
    time: u64,
    datagram: &Datagram<'_>,
) -> Result<Answered, AllocError>
    ensures { (b : Behind) (bytes : List ℕ) → StandsBehind checker.old.entries told.now b
        → reading bytes ≡ Read datagram.now
        → IfOk result (λ a. AnswersJudged (key_file_of question.now checker.old.tables) b question.now.with_key unset
        (record { number = number; time = time; bytes = bytes }) a) }
{
    let mut text = Vec::new(alloc);
    push_segment_line(&mut text, number, time, datagram)?;
    push_unset(&mut text, unset)?;
    let passes = push_said_and_why(
        checker, told, question, alloc, steps, time, datagram, &mut text,
    )?;
    Ok(Answered { text, passes })
}

// The answer on what is judged, whose header checksum may not be set.
fn answer_judged<L: Ledger>(
    checker: &mut Checker,
    told: &[GivenIsns],
    question: &Question<'_>,
    alloc: Global,
    steps: &mut Steps<L>,
    number: u64,
    unset: bool,
    stored: StoredBytes<'_>,
) -> Result<Answered, AllocError>
    ensures { (b : Behind) → StandsBehind checker.old.entries told.now b
        → IfOk result (λ a. AnswersJudged (key_file_of question.now checker.old.tables) b question.now.with_key unset
        (record { number = number; time = stored.entry.time; bytes = stored.entry.bytes.now }) a) }
{
    match read_datagram(stored.bytes) {
        Err(fault) => answer_other(
            alloc,
            number,
            PassedOver::Faulty(told_fault(stored.bytes, fault)),
        ),
        Ok(datagram) => answer_segment(
            checker,
            told,
            question,
            alloc,
            steps,
            number,
            unset,
            stored.time,
            &datagram,
        ),
    }
}

// The answer on what was stored.
fn answer_stored<L: Ledger>(
    checker: &mut Checker,
    told: &[GivenIsns],
    question: &Question<'_>,
    alloc: Global,
    steps: &mut Steps<L>,
    number: u64,
    stored: StoredBytes<'_>,
) -> Result<Answered, AllocError>
    ensures { (b : Behind) → StandsBehind checker.old.entries told.now b
        → IfOk result (λ a. AnswersBehind (key_file_of question.now checker.old.tables) b question.now.with_key number
        (stored_as number (Ok stored.entry)) a) }
{
    let found = mended(alloc, stored.bytes)?;
    match found {
        None => answer_judged(checker, told, question, alloc, steps, number, false, stored),
        Some(whole) => answer_judged(
            checker,
            told,
            question,
            alloc,
            steps,
            number,
            true,
            StoredBytes {
                time: stored.time,
                bytes: whole.as_slice(),
            },
        ),
    }
}

/// The answer on a packet of this number that has this, behind what the checker heard and what was
/// told.
pub(crate) fn answer_packet<L: Ledger>(
    checker: &mut Checker,
    told: &[GivenIsns],
    question: &Question<'_>,
    alloc: Global,
    steps: &mut Steps<L>,
    number: u64,
    stored: Result<StoredBytes<'_>, PassedOver>,
) -> Result<Answered, AllocError>
    ensures { (b : Behind) → StandsBehind checker.old.entries told.now b
        → IfOk result (λ a. AnswersBehind (key_file_of question.now checker.old.tables) b question.now.with_key number
        (stored_as number stored.entry) a) }
{
    match stored {
        Err(why) => answer_other(alloc, number, why),
        Ok(stored) => answer_stored(checker, told, question, alloc, steps, number, stored),
    }
}
