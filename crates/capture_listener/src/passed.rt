//! The packets that are passed over, counted by reasons.
ghost use Rattle.std.specs.Prelude.{◌≡◌, OnErr, OnOk};
ghost use Rattle.book_sessions.specs.Sessions.{same_reason, with_passed};
ghost use Rattle.capture_listener.specs.Places.{place_of_reason};

use book_sessions::{PassedCount, PassedOver};
use std::alloc::AllocError;

fn is_same_reason(one: PassedOver, two: PassedOver) -> bool
    ensures { result ≡ same_reason one two }
{
    one == two
}

// The place of this reason, from 0; how many there are where it isn't among them.
fn place_of_reason(why: PassedOver, passed: &[PassedCount]) -> usize
    ensures { result ≡ place_of_reason why passed.now }
{
    for (i, count) in passed.iter().enumerate() {
        if is_same_reason(why, count.why) {
            return i;
        }
    }
    passed.len()
}

/// Counts a packet that is passed over. After want of memory, or where 2^64 - 1 are counted, nothing has
/// changed.
pub(crate) fn count_passed(passed: &mut Vec<PassedCount>, why: PassedOver) -> Result<(), AllocError>
    ensures counted { OnOk result (passed.new.items ≡ with_passed why passed.old.items) }
    ensures unchanged { OnErr result (passed.new.items ≡ passed.old.items) }
{
    let place = place_of_reason(why, passed.as_slice());
    if place >= passed.len() {
        passed.push(PassedCount { why, packets: 1 })?;
        return Ok(());
    }
    let before = passed[place];
    let packets = before.packets.checked_add(1).ok_or(AllocError)?;
    passed[place] = PassedCount {
        why: before.why,
        packets,
    };
    Ok(())
}
