//! What a shim keeps is saved, and brought back.
ghost use Rattle.std.specs.Prelude.{◌≡◌, ◌≢◌, true};
ghost use Rattle.aotcp_c.specs.Codes.{ok};
ghost use Rattle.aotcp_c.specs.Shapes.{pair_of};
ghost use Rattle.aotcp_c.specs.Shims.{OnShim, Restores, RestoresAt, Saves, are_low, key_of, restored_code};
ghost use Rattle.aotcp_c.specs.Shims.{saved_of_c, shim_in};

use crate::codes::{FAMILY, NO_CONNECTION, NO_STACK, NOTHING, OK, ROW};
use crate::pairs::pair_of;
use crate::shim_handle::ShimHandle;
use crate::shim_numbers::saved_told;
use crate::shim_shapes::CSaved;
use book_base::Pair;
use book_shim::Isns;
use shim_pairs::{RestoreRefusal, Saved, Shim};
use std::alloc::Global;
use std::mem;

/// The greatest number.
const GREATEST: u64 = 1 << 63;

/// What is saved of the pair at this place.
fn save(shim: &Shim, at: u32, told: &mut CSaved) -> i32
    ensures saves { Saves at shim.now told.new result }
    ensures kept { result ≢ ok → told.new ≡ told.old }
{
    let at = at as usize;
    if at >= shim.pairs() {
        return NOTHING;
    }
    match shim.saved(at) {
        None => NO_CONNECTION,
        Some(saved) => {
            *told = saved_told(&saved);
            OK
        }
    }
}

/// What came of bringing back a connection.
fn restored_code(answer: Result<(), RestoreRefusal>) -> i32
    ensures { result ≡ restored_code answer }
{
    match answer {
        Ok(()) => 0,
        Err(RestoreRefusal::Held) => 13,
        Err(RestoreRefusal::NoNode) => 10,
    }
}

/// Whether the numbers are at most 2^63.
fn are_low(saved: &CSaved) -> bool
    ensures { result ≡ are_low saved.now }
{
    saved.sent <= GREATEST && saved.heard <= GREATEST
}

/// The KeyID of its current key, if it has one.
fn key_of(saved: &CSaved) -> Option<u8>
    ensures { result ≡ key_of saved.now }
{
    if saved.has_key {
        Some(saved.key_id)
    } else {
        None
    }
}

/// Goes on with a connection whose numbers are low.
fn resume(shim: &mut Shim, now: u64, pair: Pair, saved: &CSaved) -> i32
    requires low { are_low saved.now ≡ true }
    ensures { Restores now shim.old shim.new (saved_of_c pair saved.now) result }
{
    let known = Saved {
        pair,
        isns: Isns {
            own: saved.own_isn,
            peer: saved.peer_isn,
        },
        sent: saved.sent,
        heard: saved.heard,
        key_id: key_of(saved),
    };
    restored_code(shim.restore(now, &known))
}

/// Goes on with a connection.
fn restore(shim: &mut Shim, now: u64, saved: &CSaved) -> i32
    ensures { RestoresAt (pair_of saved.now.pair) (are_low saved.now) now shim.old shim.new saved.now result }
{
    match pair_of(&saved.pair) {
        None => FAMILY,
        Some(pair) => {
            if are_low(saved) {
                resume(shim, now, pair, saved)
            } else {
                ROW
            }
        }
    }
}

/// What is saved of the pair at this place, from 0, in the order of pairs, if it has a connection.
#[unsafe(no_mangle)]
pub extern "C" fn aotcp_shim_save(
    alloc: Global,
    handle: &mut ShimHandle,
    at: u32,
    saved: &mut CSaved,
) -> i32
    ensures saves { OnShim (shim_in handle.old) (shim_in handle.new) result
        (λ h k. Saves at h saved.new result × (k ≡ h)) }
    ensures kept { result ≢ ok → saved.new ≡ saved.old }
{
    match mem::replace(handle, ShimHandle::none()).into_box(alloc) {
        Some(b) => {
            let code = save(&b, at, saved);
            *handle = ShimHandle::of(b);
            code
        }
        None => NO_STACK,
    }
}

/// Goes on with a connection that was saved, at `now`, in seconds since 1970.
#[unsafe(no_mangle)]
pub extern "C" fn aotcp_shim_restore(
    alloc: Global,
    handle: &mut ShimHandle,
    now: u64,
    saved: &CSaved,
) -> i32
    ensures { OnShim (shim_in handle.old) (shim_in handle.new) result
        (λ h k. RestoresAt (pair_of saved.now.pair) (are_low saved.now) now h k saved.now result) }
{
    match mem::replace(handle, ShimHandle::none()).into_box(alloc) {
        Some(mut b) => {
            let code = restore(&mut b, now, saved);
            *handle = ShimHandle::of(b);
            code
        }
        None => NO_STACK,
    }
}
