//! Which sessions are foreign to a key file, and which of them are listed.
ghost use Rattle.std.specs.Prelude.{◌≡◌, ◌++◌, ◌∷◌, [], ◌||◌, IfOk, OnOk, codes, decimal, if◌then◌else◌, not};
ghost use Rattle.std.specs.List.{list_all, list_any};
ghost use Rattle.book_lines.specs.Texts.{line_text};
ghost use Rattle.book_sessions.specs.Counts.{all_counted};
ghost use Rattle.book_sessions.specs.Foreign.{foreign_sessions, is_of_others, is_foreign, is_of_node, is_without_key};
ghost use Rattle.book_sessions.specs.Foreign.{listed_sessions, own_sessions, segments_of, uses_of};
ghost use Rattle.book_sessions.specs.OutcomeTexts.{is_verified};
ghost use Rattle.book_sessions.specs.TableTexts.{foreign_line, foreign_lines, has_unverified, none_line};

use crate::table_text::all_counted;
use ao_base::push_decimal;
use book_base::Address;
use book_sessions::{KeyUse, Protection};
use capture_listener::{SessionIndex, is_verified};
use key_table::Tables;
use std::alloc::{AllocError, Global};
use text_lines::{push_field, push_newline};

/// The numbers of the sessions of a table: of those that are listed, of those that aren't foreign to a key file,
/// and of those that are.
#[derive(Drop)]
pub(crate) struct Numbers {
    pub(crate) listed: Vec<u64>,
    pub(crate) own: Vec<u64>,
    pub(crate) foreign: Vec<u64>,
}

fn is_of_node(tables: &Tables, address: &Address) -> bool
    ensures { result ≡ is_of_node tables.now address.now }
{
    match tables.table(address) {
        None => false,
        Some(_) => true,
    }
}

fn is_without_key(protection: Protection) -> bool
    ensures { result ≡ is_without_key protection }
{
    match protection {
        Protection::Plain => true,
        Protection::Md5 => true,
        Protection::Ao => false,
        Protection::Unclear => false,
    }
}

fn is_at_node(tables: &Tables, one: &KeyUse) -> bool
    ensures { result ≡ (is_of_node tables.now one.now.source.address
        || is_of_node tables.now one.now.destination.address) }
{
    is_of_node(tables, &one.source.address) || is_of_node(tables, &one.destination.address)
}

fn is_apart(tables: &Tables, one: &KeyUse) -> bool
    ensures { result ≡ is_of_others tables.now one.now }
{
    is_without_key(one.protection) && !is_at_node(tables, one)
}

fn are_apart(tables: &Tables, uses: &[KeyUse]) -> bool
    ensures { result ≡ list_all (is_of_others tables.now) uses.now }
{
    uses.iter().all(|one| is_apart(tables, one))
}

// Whether the session of this number is foreign, by its own segments.
fn is_foreign(
    alloc: Global,
    tables: &Tables,
    index: &SessionIndex,
    number: u64,
) -> Result<bool, AllocError>
    ensures { IfOk result (λ foreign. foreign ≡ is_foreign tables.now index.now.uses number) }
{
    let uses = index.uses_of(alloc, number)?;
    Ok(are_apart(tables, uses.as_slice()))
}

// Puts the number behind others, if it is chosen.
fn push_chosen(numbers: &mut Vec<u64>, chosen: bool, number: u64) -> Result<(), AllocError>
    ensures { OnOk result
        (numbers.new.items ≡ (if chosen then numbers.old.items ++ number ∷ [] else numbers.old.items)) }
{
    if chosen {
        numbers.push(number)?;
    }
    Ok(())
}

/// The numbers of all sessions of a table. An error for want of memory alone.
pub(crate) fn numbers_of(
    alloc: Global,
    all: bool,
    tables: &Tables,
    index: &SessionIndex,
) -> Result<Numbers, AllocError>
    ensures listed { IfOk result (λ n. n.listed.items ≡ listed_sessions all tables.now index.now) }
    ensures own { IfOk result (λ n. n.own.items ≡ own_sessions tables.now index.now) }
    ensures foreign { IfOk result (λ n. n.foreign.items ≡ foreign_sessions tables.now index.now) }
{
    let mut listed = Vec::new(alloc);
    let mut own = Vec::new(alloc);
    let mut foreign = Vec::new(alloc);
    for i in 0..index.sessions() {
        let apart = is_foreign(alloc, tables, index, i + 1)?;
        push_chosen(&mut listed, all || !apart, i + 1)?;
        push_chosen(&mut own, !apart, i + 1)?;
        push_chosen(&mut foreign, apart, i + 1)?;
    }
    Ok(Numbers {
        listed,
        own,
        foreign,
    })
}

// How many segments the session of this number has.
fn count_segments(alloc: Global, index: &SessionIndex, number: u64) -> Result<u64, AllocError>
    ensures { IfOk result (λ n. n ≡ all_counted (uses_of index.now.uses number)) }
{
    let uses = index.uses_of(alloc, number)?;
    all_counted(uses.as_slice()).ok_or(AllocError)
}

/// How many segments the sessions of these numbers have. An error for want of memory, or where they are more
/// than 2^64 - 1.
pub(crate) fn segments_of(
    alloc: Global,
    index: &SessionIndex,
    numbers: &[u64],
) -> Result<u64, AllocError>
    ensures { IfOk result (λ n. n ≡ segments_of index.now.uses numbers.now) }
{
    let mut count: u64 = 0;
    for number in numbers {
        let more = count_segments(alloc, index, *number)?;
        count = count.checked_add(more).ok_or(AllocError)?;
    }
    Ok(count)
}

fn push_foreign_line(out: &mut Vec<u8>, sessions: u64, segments: u64) -> Result<(), AllocError>
    ensures { OnOk result (out.new.items ≡ out.old.items ++ line_text
        (codes "foreign" ∷ codes "sessions" ∷ decimal sessions
        ∷ codes "segments" ∷ decimal segments ∷ [])) }
{
    out.extend_from_slice(b"foreign")?;
    push_field(out, b"sessions", sessions)?;
    push_field(out, b"segments", segments)?;
    push_newline(out)
}

// Puts the line that stands for foreign sessions behind `out`, if there are some.
fn push_count(out: &mut Vec<u8>, sessions: u64, segments: u64) -> Result<(), AllocError>
    ensures { OnOk result (out.new.items ≡ out.old.items ++ foreign_line sessions segments) }
{
    if sessions == 0 {
        return Ok(());
    }
    push_foreign_line(out, sessions, segments)
}

// Puts behind `out` that there is none but foreign sessions, if it is so.
fn push_none(out: &mut Vec<u8>, own: &[u64]) -> Result<(), AllocError>
    ensures { OnOk result (out.new.items ≡ out.old.items ++ none_line own.now) }
{
    match own {
        [] => out.extend_from_slice(b"no session of the key file\n"),
        [_first, _others @ ..] => Ok(()),
    }
}

/// Puts what is told of foreign sessions behind `out`, and whether there are others.
pub(crate) fn push_foreign(
    alloc: Global,
    out: &mut Vec<u8>,
    index: &SessionIndex,
    foreign: &[u64],
    own: &[u64],
) -> Result<(), AllocError>
    ensures { OnOk result (out.new.items ≡ out.old.items ++ foreign_lines index.now.uses foreign.now own.now) }
{
    let segments = segments_of(alloc, index, foreign)?;
    push_count(out, foreign.len() as u64, segments)?;
    push_none(out, own)
}

fn is_unverified_among(uses: &[KeyUse]) -> bool
    ensures { result ≡ list_any (λ u. not (is_verified u.outcome)) uses.now }
{
    uses.iter().any(|one| !is_verified(one.outcome))
}

// Whether a segment of the session of this number isn't verified.
fn has_unverified(alloc: Global, index: &SessionIndex, number: u64) -> Result<bool, AllocError>
    ensures { IfOk result (λ b. b ≡ has_unverified index.now.uses number) }
{
    let uses = index.uses_of(alloc, number)?;
    Ok(is_unverified_among(uses.as_slice()))
}

/// Whether a segment of the sessions of these numbers isn't verified. An error for want of memory alone.
pub(crate) fn have_unverified(
    alloc: Global,
    index: &SessionIndex,
    numbers: &[u64],
) -> Result<bool, AllocError>
    ensures { IfOk result (λ b. b ≡ list_any (has_unverified index.now.uses) numbers.now) }
{
    for number in numbers {
        if has_unverified(alloc, index, *number)? {
            return Ok(true);
        }
    }
    Ok(false)
}
