//! The lines of rows.
ghost use Rattle.std.specs.Prelude.{◌≡◌, ◌++◌, ◌∷◌, [], OnOk, codes, decimal};
ghost use Rattle.toml.specs.View.{table_view};
ghost use Rattle.book_base.specs.Algorithms.{name_of};
ghost use Rattle.book_lines.specs.Texts.{spaced};
ghost use Rattle.book_scope_plan.specs.AdminNames.{admin_name};
ghost use Rattle.book_scope_plan.specs.FindingTexts.{admin_text};
ghost use Rattle.book_why.specs.ChangeTexts.{options_text};
ghost use Rattle.book_why.specs.Lacks.{lacks, lifetime_texts, row_and_lacks, row_shown, row_shown_line};
ghost use Rattle.book_why.specs.Lacks.{rows_and_lacks};

use crate::lacks::push_lacks;
use crate::texts::push_options_text;
use book_base::Pair;
use key_table::{Lifetime, Row, Table};
use plan_texts::{admin_name, push_admin};
use scope_sessions::push_time;
use std::alloc::AllocError;
use text_lines::{push_field, push_newline, push_number, push_text};

// The number of a row, its node, and what the document calls it.
fn push_name(
    out: &mut Vec<u8>,
    document: &toml::Table,
    name: &[u8],
    number: u8,
) -> Result<(), AllocError>
    ensures { OnOk result (out.new.items ≡ out.old.items
        ++ spaced (decimal number ∷ codes "of"
        ∷ (name.now ++ admin_text (admin_name (table_view document.now) name.now number)) ∷ [])) }
{
    push_number(out, u64::from(number))?;
    push_text(out, b"of")?;
    push_text(out, name)?;
    push_admin(out, admin_name(document, name, number))
}

// The KeyIDs of a row, its algorithm, and whether its MAC covers the options.
fn push_key(out: &mut Vec<u8>, row: &Row) -> Result<(), AllocError>
    ensures { OnOk result (out.new.items ≡ out.old.items ++ spaced (codes "send-id" ∷ decimal row.now.send_id
        ∷ codes "recv-id" ∷ decimal row.now.recv_id ∷ name_of row.now.algorithm ∷ options_text row.now.with_options
        ∷ [])) }
{
    push_field(out, b"send-id", u64::from(row.send_id()))?;
    push_field(out, b"recv-id", u64::from(row.recv_id()))?;
    push_text(out, row.algorithm().name())?;
    push_options_text(out, row.with_options())
}

fn push_lifetime(out: &mut Vec<u8>, lifetime: Lifetime) -> Result<(), AllocError>
    ensures { OnOk result (out.new.items ≡ out.old.items ++ spaced (lifetime_texts lifetime [])) }
{
    push_text(out, b"from")?;
    push_time(out, lifetime.first)?;
    push_text(out, b"to")?;
    push_time(out, lifetime.last)
}

// When a row is for sending and for accepting.
fn push_lifetimes(out: &mut Vec<u8>, row: &Row) -> Result<(), AllocError>
    ensures { OnOk result (out.new.items ≡ out.old.items
        ++ spaced (codes "sends" ∷ lifetime_texts row.now.sending
        (codes "accepts" ∷ lifetime_texts row.now.accepting []))) }
{
    push_text(out, b"sends")?;
    push_lifetime(out, row.sending())?;
    push_text(out, b"accepts")?;
    push_lifetime(out, row.accepting())
}

#[tactic(auto, unfolding(book_why::specs::Lacks::row_shown))]
fn push_row(
    out: &mut Vec<u8>,
    document: &toml::Table,
    table: &Table,
    number: u8,
    row: &Row,
) -> Result<(), AllocError>
    ensures { OnOk result (out.new.items ≡ out.old.items ++ row_shown (table_view document.now) table.now
        (record { number = number; row = row.now })) }
{
    out.extend_from_slice(b"row")?;
    push_name(out, document, table.name(), number)?;
    push_key(out, row)?;
    push_lifetimes(out, row)
}

/// Puts the line of a row of this number behind `out`. Where memory runs out a part of it may stand there.
pub(crate) fn push_row_line(
    out: &mut Vec<u8>,
    document: &toml::Table,
    table: &Table,
    number: u8,
    row: &Row,
) -> Result<(), AllocError>
    ensures { OnOk result (out.new.items ≡ out.old.items ++ row_shown_line (table_view document.now) table.now
        (record { number = number; row = row.now })) }
{
    push_row(out, document, table, number, row)?;
    push_newline(out)
}

// The line of a row, with what it lacks.
fn push_row_and_lacks(
    out: &mut Vec<u8>,
    document: &toml::Table,
    table: &Table,
    number: u8,
    row: &Row,
    pair: &Pair,
    id: u8,
    now: u64,
) -> Result<(), AllocError>
    ensures { OnOk result (out.new.items ≡ out.old.items
        ++ row_and_lacks (table_view document.now) table.now (record { number = number; row = row.now })
        (lacks pair.now id now row.now)) }
{
    push_row(out, document, table, number, row)?;
    push_lacks(out, row, pair, id, now)?;
    push_newline(out)
}

/// Puts the line of each row of a table behind `out`, with what it lacks to take a segment with these sockets
/// and this KeyID at this time, in seconds since 1970. Where memory runs out a part of them may stand there.
pub(crate) fn push_rows_and_lacks(
    out: &mut Vec<u8>,
    document: &toml::Table,
    table: &Table,
    pair: &Pair,
    id: u8,
    now: u64,
) -> Result<(), AllocError>
    ensures { OnOk result (out.new.items ≡ out.old.items
        ++ rows_and_lacks (table_view document.now) table.now (lacks pair.now id now) 1 table.now.rows) }
{
    // It tells that a table has at most 64 rows, so that each number fits.
    let _count = table.rows();
    let rows = table.entries();
    for (i, row) in rows.iter().enumerate() {
        push_row_and_lacks(out, document, table, (i + 1) as u8, row, pair, id, now)?;
    }
    Ok(())
}
