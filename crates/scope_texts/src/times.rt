//! What is found in the direction and the lifetimes of a row.
ghost use Rattle.std.specs.Prelude.{◌≡◌, ◌++◌, [], OnOk, codes, is_some, option_and_then, option_map};
ghost use Rattle.toml.specs.View.{table_view, view};
ghost use Rattle.book_keys.specs.Columns.{direction_of, text_of};
ghost use Rattle.book_scope_texts.specs.RowFindings.{field_at, field_unless, lifetime_findings, order_findings};
ghost use Rattle.book_scope_texts.specs.RowFindings.{term_findings, time_findings, time_hint_of};
ghost use Rattle.scope_texts.specs.Fields.{field_of};

use crate::field::{Field, field_at, push_column, push_unless};
use crate::hints::push_time_hint;
use crate::moments::push_moment_hint;
use book_scope_texts::{KeyFinding, KeyPlace};
use key_table::{LATEST, direction_at, member_at, time_at};
use std::alloc::AllocError;
use toml::{Table, Value};

/// Puts behind `out` why a value is no time.
fn push_hint(out: &mut Vec<u8>, value: Option<&Value>) -> Result<(), AllocError>
    ensures { OnOk result (out.new.items ≡ out.old.items ++ time_hint_of (option_map (λ v. view v.now) value.entry)) }
{
    match value {
        Some(Value::String(text)) => push_time_hint(out, text.as_str()),
        Some(Value::Datetime(moment)) => push_moment_hint(out, moment),
        _ => Ok(()),
    }
}

/// A time, by what stands for an absent one.
#[tactic(auto, unfolding(book_scope_texts::specs::RowFindings::time_findings))]
fn push_time(
    findings: &mut Vec<KeyFinding>,
    place: &KeyPlace,
    absent: u64,
    key: &str,
    table: &Table,
) -> Result<(), AllocError>
    ensures { OnOk result (findings.new.items ≡ findings.old.items
        ++ time_findings place.now absent key.now (table_view table.now)) }
{
    let mut hint = Vec::new(*findings.allocator());
    push_hint(&mut hint, member_at(table, key))?;
    push_unless(
        findings,
        time_at(table, key, absent).is_some(),
        field_at(place, key, table),
        hint.as_slice(),
        b"a time from 1970 on, \"YYYYMMDDhhmmssZ\", or no such field",
    )
}

/// An end of a lifetime, by the key of its start.
#[tactic(auto, unfolding(book_scope_texts::specs::RowFindings::order_findings))]
fn push_order(
    findings: &mut Vec<KeyFinding>,
    end: Field<'_>,
    start: &str,
    first: Option<u64>,
    last: Option<u64>,
) -> Result<(), AllocError>
    ensures { OnOk result (findings.new.items ≡ findings.old.items
        ++ order_findings (field_of end.entry) start.now first last) }
{
    let (first, last) = match (first, last) {
        (Some(first), Some(last)) => (first, last),
        _ => return Ok(()),
    };
    let mut hint = Vec::from_slice(*findings.allocator(), b", before ")?;
    hint.extend_from_slice(start.as_bytes())?;
    let mut wanted = Vec::from_slice(*findings.allocator(), b"a time that isn't before ")?;
    wanted.extend_from_slice(start.as_bytes())?;
    push_unless(
        findings,
        !(last < first),
        end,
        hint.as_slice(),
        wanted.as_slice(),
    )
}

/// A lifetime, by the keys of its start and end.
#[tactic(auto, unfolding(book_scope_texts::specs::RowFindings::lifetime_findings))]
fn push_lifetime(
    findings: &mut Vec<KeyFinding>,
    place: &KeyPlace,
    start: &str,
    end: &str,
    table: &Table,
) -> Result<(), AllocError>
    ensures { OnOk result (findings.new.items ≡ findings.old.items
        ++ lifetime_findings place.now start.now end.now (table_view table.now)) }
{
    push_time(findings, place, 0, start, table)?;
    push_time(findings, place, LATEST, end, table)?;
    push_order(
        findings,
        field_at(place, end, table),
        start,
        time_at(table, start, 0),
        time_at(table, end, LATEST),
    )
}

/// Direction and the two lifetimes.
#[tactic(auto, unfolding(book_scope_texts::specs::RowFindings::term_findings))]
pub(crate) fn push_terms(
    findings: &mut Vec<KeyFinding>,
    place: &KeyPlace,
    table: &Table,
) -> Result<(), AllocError>
    ensures { OnOk result (findings.new.items ≡ findings.old.items ++ term_findings place.now (table_view table.now)) }
{
    push_column(
        findings,
        direction_at(table).is_some(),
        place,
        table,
        "Direction",
        b"\"in\", \"out\", \"both\" or \"disabled\"",
    )?;
    push_lifetime(
        findings,
        place,
        "SendLifetimeStart",
        "SendLifetimeEnd",
        table,
    )?;
    push_lifetime(
        findings,
        place,
        "AcceptLifetimeStart",
        "AcceptLifetimeEnd",
        table,
    )
}
