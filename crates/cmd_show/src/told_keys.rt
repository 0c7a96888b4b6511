//! The rows of a key file with their state at a time.
ghost use Rattle.std.specs.Prelude.{◌≡◌, ◌++◌, ◌&&◌, OnOk, IfOk, false};
ghost use Rattle.book_lines.specs.Texts.{spaced};
ghost use Rattle.book_keys.specs.Lifetimes.{contains};
ghost use Rattle.book_keys.specs.Rows.{receives, sends};
ghost use Rattle.book_cmd_link.specs.KeyTexts.{direction_text, yes_or_no, row_line, row_lines, node_lines, keys_text};
ghost use Rattle.book_answer.specs.Answers.{done};
ghost use Rattle.command_report.specs.Reports.{Reports};
ghost use Rattle.cmd_show.specs.RowTexts.{state_texts, term_texts};

use ao_base::print_address;
use book_base::Bytes;
use command_report::{Report, Stop};
use key_table::{Direction, Row, Table, Tables};
use std::alloc::{AllocError, Global};
use text_lines::{push_field, push_newline, push_number, push_text};

/// The word for a direction, as a key file writes it (RFC 7210, section 2).
fn direction_word(direction: Direction) -> &'static [u8]
    ensures { result.now ≡ direction_text direction }
{
    match direction {
        Direction::Receive => b"in",
        Direction::Send => b"out",
        Direction::Both => b"both",
        Direction::Disabled => b"disabled",
    }
}

fn yes_or_no(holds: bool) -> &'static [u8]
    ensures { result.now ≡ yes_or_no holds }
{
    if holds { b"yes" } else { b"no" }
}

/// Whether the row sends at the time, whatever the pair.
fn is_sending(row: &Row, time: u64) -> bool
    ensures { result ≡ (sends row.now.direction && contains row.now.sending time) }
{
    row.direction().sends() && row.sending().contains(time)
}

/// Whether the row accepts at the time, whatever the pair.
fn is_accepting(row: &Row, time: u64) -> bool
    ensures { result ≡ (receives row.now.direction && contains row.now.accepting time) }
{
    row.direction().receives() && row.accepting().contains(time)
}

/// The ids, the algorithm and the direction of a row.
fn push_terms(out: &mut Vec<u8>, row: &Row) -> Result<(), AllocError>
    ensures { OnOk result (out.new.items ≡ out.old.items ++ spaced (term_texts row.now)) }
{
    push_field(out, b"send-id", u64::from(row.send_id()))?;
    push_field(out, b"recv-id", u64::from(row.recv_id()))?;
    push_text(out, row.algorithm().name())?;
    push_text(out, direction_word(row.direction()))
}

/// Whether a row sends, and whether it accepts.
fn push_state(out: &mut Vec<u8>, row: &Row, time: u64) -> Result<(), AllocError>
    ensures { OnOk result (out.new.items ≡ out.old.items ++ spaced (state_texts time row.now)) }
{
    push_text(out, b"sending")?;
    push_text(out, yes_or_no(is_sending(row, time)))?;
    push_text(out, b"accepting")?;
    push_text(out, yes_or_no(is_accepting(row, time)))
}

fn push_row(out: &mut Vec<u8>, number: u64, row: &Row, time: u64) -> Result<(), AllocError>
    ensures { OnOk result (out.new.items ≡ out.old.items ++ row_line time number row.now) }
{
    out.extend_from_slice(b"row")?;
    push_number(out, number)?;
    push_terms(out, row)?;
    push_state(out, row, time)?;
    push_newline(out)
}

fn push_rows(out: &mut Vec<u8>, rows: &[Row], time: u64) -> Result<(), AllocError>
    ensures { OnOk result (out.new.items ≡ out.old.items ++ row_lines time 1 rows.now) }
{
    for (i, row) in rows.iter().enumerate() {
        push_row(out, i as u64 + 1, row, time)?;
    }
    Ok(())
}

fn push_node(
    alloc: Global,
    out: &mut Vec<u8>,
    number: u8,
    table: &Table,
    time: u64,
) -> Result<(), AllocError>
    ensures { OnOk result (out.new.items ≡ out.old.items ++ node_lines time number table.now) }
{
    let address = print_address(alloc, &table.address())?;
    out.extend_from_slice(b"node")?;
    push_number(out, u64::from(number))?;
    push_text(out, table.name())?;
    push_text(out, address.as_slice())?;
    push_newline(out)?;
    push_rows(out, table.entries(), time)
}

/// The rows of each node with their state at a time.
#[tactic(auto, unfolding(book_cmd_link::specs::KeyTexts::keys_text))]
fn keys_text(alloc: Global, tables: &Tables, time: u64) -> Result<Bytes, AllocError>
    ensures { IfOk result (λ text. text ≡ keys_text time tables.now) }
{
    let mut out = Vec::new(alloc);
    for i in 0..tables.nodes() {
        push_node(alloc, &mut out, i + 1, tables.node(i + 1), time)?;
    }
    Ok(Bytes::from_vec(out))
}

/// The answer of `keys`: for each node in the key file's order a line `node N NAME ADDRESS`, and for
/// each of its rows `row N send-id ID recv-id ID ALGORITHM DIRECTION sending YES accepting YES`, where
/// each YES is `yes` or `no`. A row sends where its direction is out or both and its send lifetime
/// contains the time, in seconds since 1970; it accepts where its direction is in or both and its
/// accept lifetime does, whatever the connection (RFC 7210, section 3). Nothing is amiss. `Memory`
/// only for want of memory, and no other stop comes.
pub fn answer_keys(alloc: Global, tables: &Tables, time: u64) -> Result<Report, Stop>
    ensures { Reports result (done false (keys_text time tables.now)) }
{
    let text = keys_text(alloc, tables, time)?;
    Ok(Report {
        text,
        is_amiss: false,
    })
}
