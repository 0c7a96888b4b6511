//! Datagrams come and go.
ghost use Rattle.std.specs.Prelude.{◌≡◌, ◌≢◌, ◌≤◌, ◌<◌, length};
ghost use Rattle.book_stack.specs.Counters.{StackCounts};
ghost use Rattle.book_stack.specs.Stacks.{StackState};
ghost use Rattle.ao_stack.specs.CountersStands.{Stands};
ghost use Rattle.aotcp_c.specs.Calls.{Hears, OnStack, Sends};
ghost use Rattle.aotcp_c.specs.Codes.{no_stack, ok};
ghost use Rattle.aotcp_c.specs.Handles.{stack_in};

use crate::answers::heard_of;
use crate::codes::{NO_STACK, NOTHING, OK, ROOM, TIME};
use crate::handle::Handle;
use crate::shapes::CHeard;
use ao_stack::CountedStack;
use std::alloc::Global;
use std::mem;

/// The last millisecond of the year 9999, since 1970.
const LATEST: u64 = 253_402_300_799_999;

/// The shortest room for a datagram.
const LEAST_ROOM: usize = 1500;

/// A datagram comes.
fn input(stack: &mut CountedStack, now: u64, bytes: &[u8], told: &mut CHeard) -> i32
    ensures hears { (s : StackState) (n : StackCounts) → Stands stack.old s n
        → Hears stack.new (record { now = now; bytes = bytes.now }) s n told.new result }
    ensures kept { result ≢ ok → told.new ≡ told.old }
{
    if now > LATEST {
        return TIME;
    }
    *told = heard_of(&stack.input(now, bytes));
    OK
}

/// The next datagram.
fn output(stack: &mut CountedStack, now: u64, room: &mut [u8], length: &mut usize) -> i32
    ensures sends { (s : StackState) (n : StackCounts) → Stands stack.old s n
        → Sends stack.new now room.old room.new length.new s n result }
    ensures kept { result ≢ ok → length.new ≡ length.old }
    ensures room { result ≡ no_stack → room.new ≡ room.old }
{
    if now > LATEST {
        return TIME;
    }
    if room.len() < LEAST_ROOM {
        return ROOM;
    }
    match stack.output(now, room) {
        None => NOTHING,
        Some(count) => {
            *length = count;
            OK
        }
    }
}

/// A datagram comes at `now`, in milliseconds since 1970: to the end of its pair, or it knocks.
#[unsafe(no_mangle)]
pub extern "C" fn aotcp_input(
    alloc: Global,
    handle: &mut Handle,
    now: u64,
    bytes: &[u8],
    told: &mut CHeard,
) -> i32
    ensures hears { OnStack (stack_in handle.old) (stack_in handle.new) result
        (λ p q. (s : StackState) (n : StackCounts) → Stands p s n
        → Hears q (record { now = now; bytes = bytes.now }) s n told.new result) }
    ensures kept { result ≢ ok → told.new ≡ told.old }
{
    match mem::replace(handle, Handle::none()).into_box(alloc) {
        Some(mut b) => {
            let code = input(&mut b, now, bytes, told);
            *handle = Handle::of(b);
            code
        }
        None => NO_STACK,
    }
}

/// The next datagram that is due at `now`, in milliseconds since 1970, in front of `room`.
#[unsafe(no_mangle)]
pub extern "C" fn aotcp_output(
    alloc: Global,
    handle: &mut Handle,
    now: u64,
    room: &mut [u8],
    length: &mut usize,
) -> i32
    ensures sends { OnStack (stack_in handle.old) (stack_in handle.new) result
        (λ p q. (s : StackState) (n : StackCounts) → Stands p s n
        → Sends q now room.old room.new length.new s n result) }
    ensures kept { result ≢ ok → length.new ≡ length.old }
    ensures room { result ≡ no_stack → room.new ≡ room.old }
{
    match mem::replace(handle, Handle::none()).into_box(alloc) {
        Some(mut b) => {
            let code = output(&mut b, now, room, length);
            *handle = Handle::of(b);
            code
        }
        None => NO_STACK,
    }
}
