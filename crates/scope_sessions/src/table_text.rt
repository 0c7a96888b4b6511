//! The whole text of a table, and whether anything in it is amiss.
ghost use Rattle.std.specs.Prelude.{◌≡◌, ◌++◌, ◌∷◌, ◌||◌, [], codes, decimal, IfOk, OnOk, IfSome};
ghost use Rattle.book_lines.specs.Texts.{line_text};
ghost use Rattle.std.specs.List.{flat_map};
ghost use Rattle.book_sessions.specs.Counts.{all_counted, all_passed};
ghost use Rattle.toml.specs.View.{table_view};
ghost use Rattle.book_sessions.specs.SessionTexts.{lines_of_session, unset_line};
ghost use Rattle.book_sessions.specs.TableTexts.{foreign_lines, has_amiss, is_none, sessions_text};
ghost use Rattle.scope_keys.specs.KeyFiles.{keys_at};

use crate::foreign::{Numbers, have_unverified, numbers_of, push_foreign};
use crate::key_texts::push_keys;
use crate::passed_texts::push_counts;
use crate::session_texts::{push_capture, push_sessions};
use ao_base::push_decimal;
use book_sessions::{KeyUse, PassedCount};
use capture_listener::{Evidence, SessionIndex, has_doubtful};
use key_table::Tables;
use std::alloc::{AllocError, Global};
use text_lines::push_newline;

/// How many segments there are; None where they are more than 2^64 - 1.
pub(crate) fn all_counted(uses: &[KeyUse]) -> Option<u64>
    ensures { IfSome result (λ n. n ≡ all_counted uses.now) }
{
    let mut count: u64 = 0;
    for one in uses {
        count = count.checked_add(one.segments)?;
    }
    Some(count)
}

/// How many packets are passed over; None where they are more than 2^64 - 1.
pub(crate) fn all_passed(passed: &[PassedCount]) -> Option<u64>
    ensures { IfSome result (λ n. n ≡ all_passed passed.now) }
{
    let mut count: u64 = 0;
    for one in passed {
        count = count.checked_add(one.packets)?;
    }
    Some(count)
}

fn is_none(own: &[u64]) -> bool
    ensures { result ≡ is_none own.now }
{
    match own {
        [] => true,
        [_first, _others @ ..] => false,
    }
}

fn is_one_of_three(unverified: bool, doubtful: bool, none: bool) -> bool
    ensures { result ≡ ((unverified || doubtful) || none) }
{
    (unverified || doubtful) || none
}

/// Whether a segment of a session that isn't foreign isn't verified, or there is no such session; or a packet that
/// is passed over may be a segment. An error for want of memory alone.
#[tactic(auto, unfolding(book_sessions::specs::TableTexts::has_amiss))]
pub(crate) fn has_amiss(
    alloc: Global,
    tables: &Tables,
    index: &SessionIndex,
) -> Result<bool, AllocError>
    ensures { IfOk result (λ amiss. amiss ≡ has_amiss tables.now index.now) }
{
    let numbers = numbers_of(alloc, true, tables, index)?;
    let own = numbers.own.as_slice();
    let unverified = have_unverified(alloc, index, own)?;
    let doubtful = has_doubtful(index.passed());
    Ok(is_one_of_three(unverified, doubtful, is_none(own)))
}

// Puts the line of so many segments without a header checksum behind `out`.
fn push_unset_line(out: &mut Vec<u8>, unset: u64) -> Result<(), AllocError>
    ensures { OnOk result (out.new.items ≡ out.old.items ++ line_text (codes "ip-checksum" ∷ decimal unset ∷ [])) }
{
    out.extend_from_slice(b"ip-checksum ")?;
    push_decimal(out, unset)?;
    push_newline(out)
}

// Puts the same behind `out`, if there are some.
fn push_unset(out: &mut Vec<u8>, unset: u64) -> Result<(), AllocError>
    ensures { OnOk result (out.new.items ≡ out.old.items ++ unset_line unset) }
{
    if unset == 0 {
        return Ok(());
    }
    push_unset_line(out, unset)
}

// Puts what is told of foreign sessions behind `out`, and the sessions that are listed.
fn push_told(
    alloc: Global,
    out: &mut Vec<u8>,
    index: &SessionIndex,
    numbers: &Numbers,
) -> Result<(), AllocError>
    ensures { OnOk result
        (out.new.items ≡ out.old.items ++ (foreign_lines index.now.uses numbers.now.foreign.items numbers.now.own.items
        ++ flat_map (lines_of_session index.now.uses) numbers.now.listed.items)) }
{
    push_foreign(
        alloc,
        out,
        index,
        numbers.foreign.as_slice(),
        numbers.own.as_slice(),
    )?;
    push_sessions(alloc, out, index, numbers.listed.as_slice())
}

/// Puts the text of a table behind `out`, with the keys of these tables. An error for want of memory,
/// or where more than 2^64 - 1 packets are counted; then a part of it may stand there.
pub(crate) fn push_table(
    alloc: Global,
    all: bool,
    out: &mut Vec<u8>,
    document: &toml::Table,
    tables: &Tables,
    index: &SessionIndex,
) -> Result<(), AllocError>
    ensures { OnOk result (out.new.items ≡ out.old.items ++ sessions_text all
        (keys_at (table_view document.now) tables.now) index.now) }
{
    let uses = index.uses();
    let segments = all_counted(uses).ok_or(AllocError)?;
    let others = all_passed(index.passed()).ok_or(AllocError)?;
    let evidence = Evidence::of(alloc, index)?;
    let numbers = numbers_of(alloc, all, tables, index)?;
    push_capture(out, segments, others, uses)?;
    push_counts(out, index.passed())?;
    push_unset(out, index.unset())?;
    push_told(alloc, out, index, &numbers)?;
    push_keys(alloc, out, document, &evidence, tables)?;
    Ok(())
}
