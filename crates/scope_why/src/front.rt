//! Packets in front of the one that is asked for.
ghost use Rattle.std.specs.Prelude.{◌≡◌, ℕ, IfOk, OnOk, Ok};
ghost use Rattle.book_why.specs.Answers.{Behind};
ghost use Rattle.book_sessions.specs.Sessions.{judged_of};
ghost use Rattle.scope_why.specs.Fronts.{StandsBehind, behind_one, stored_as};

use crate::others::push_told;
use crate::shown::StoredBytes;
use ao_base::Steps;
use book_sessions::{GivenIsns, PassedOver};
use capture_check::Checker;
use scope_sessions::mended;
use std::alloc::{AllocError, Global};
use std::sync::ledger::Ledger;

// Hears what is judged.
fn hear_judged<L: Ledger>(
    checker: &mut Checker,
    told: &mut Vec<GivenIsns>,
    alloc: Global,
    steps: &mut Steps<L>,
    stored: StoredBytes<'_>,
) -> Result<(), AllocError>
    ensures stands { (b : Behind) (number : ℕ) → StandsBehind checker.old.entries told.old.items b
        → OnOk result (StandsBehind checker.new.entries told.new.items
        (behind_one checker.old.tables b (stored_as number (Ok stored.entry)))) }
    ensures tables { checker.new.tables ≡ checker.old.tables }
{
    push_told(told, stored.bytes)?;
    checker.next(alloc, stored.time, stored.bytes, steps)?;
    Ok(())
}

// Hears what was stored, with its header checksum.
fn hear_stored<L: Ledger>(
    checker: &mut Checker,
    told: &mut Vec<GivenIsns>,
    alloc: Global,
    steps: &mut Steps<L>,
    stored: StoredBytes<'_>,
) -> Result<(), AllocError>
    ensures stands { (b : Behind) (number : ℕ) → StandsBehind checker.old.entries told.old.items b
        → OnOk result (StandsBehind checker.new.entries told.new.items
        (behind_one checker.old.tables b (judged_of (stored_as number (Ok stored.entry))))) }
    ensures tables { checker.new.tables ≡ checker.old.tables }
{
    let found = mended(alloc, stored.bytes)?;
    match found {
        None => hear_judged(checker, told, alloc, steps, stored),
        Some(whole) => hear_judged(
            checker,
            told,
            alloc,
            steps,
            StoredBytes {
                time: stored.time,
                bytes: whole.as_slice(),
            },
        ),
    }
}

/// Hears a packet of which this is judged, and keeps what it tells. With want of memory what it tells may be
/// kept, and it isn't heard.
pub(crate) fn hear_packet<L: Ledger>(
    checker: &mut Checker,
    told: &mut Vec<GivenIsns>,
    alloc: Global,
    steps: &mut Steps<L>,
    stored: Result<StoredBytes<'_>, PassedOver>,
) -> Result<(), AllocError>
    ensures stands { (b : Behind) (number : ℕ) → StandsBehind checker.old.entries told.old.items b
        → OnOk result (StandsBehind checker.new.entries told.new.items
        (behind_one checker.old.tables b (judged_of (stored_as number stored.entry)))) }
    ensures tables { checker.new.tables ≡ checker.old.tables }
{
    match stored {
        Err(_) => Ok(()),
        Ok(stored) => hear_stored(checker, told, alloc, steps, stored),
    }
}

/// The initial sequence numbers that are given, as the first ones that are told.
pub(crate) fn told_first(alloc: Global, given: &[GivenIsns]) -> Result<Vec<GivenIsns>, AllocError>
    ensures { IfOk result (λ v. v.items ≡ given.now) }
{
    let mut told = Vec::new(alloc);
    told.extend_from_slice(given)?;
    Ok(told)
}
