//! Looking at a stack.
ghost use Rattle.std.specs.Prelude.{◌≡◌, ◌≢◌};
ghost use Rattle.book_cmd_node.specs.NodeRuns.{held_end};
ghost use Rattle.book_stack.specs.Stacks.{StackState, next_deadline};
ghost use Rattle.aotcp_c.specs.Calls.{IsAt, IsOverdue, IsState, OnStack, Tells};
ghost use Rattle.aotcp_c.specs.Codes.{ok};
ghost use Rattle.aotcp_c.specs.Handles.{stack_in};
ghost use Rattle.aotcp_c.specs.Shapes.{pair_of, state_of};

use crate::codes::{FAMILY, NO_CONNECTION, NO_STACK, NOTHING, OK};
use crate::handle::Handle;
use crate::numbers::phase_number;
use crate::pairs::pair_of;
use crate::shapes::{CPair, CState};
use ao_stack::CountedStack;
use book_stack::Front;
use std::alloc::Global;
use std::mem;

/// Where an end stands, as numbers.
fn state_of(front: Front) -> CState
    ensures { result ≡ state_of front }
{
    CState {
        una: front.una,
        next: front.next,
        phase: phase_number(front.phase),
    }
}

/// When the next datagram is due.
fn deadline(stack: &CountedStack, at: &mut u64) -> i32
    ensures told { (s : StackState) → IsAt stack.now s → Tells (next_deadline s) at.new result }
    ensures kept { result ≢ ok → at.new ≡ at.old }
{
    match stack.next_deadline() {
        None => NOTHING,
        Some(deadline) => {
            *at = deadline;
            OK
        }
    }
}

/// Where the end of the pair stands.
fn state(stack: &CountedStack, at: &CPair, told: &mut CState) -> i32
    ensures told { (s : StackState) → IsAt stack.now s → IsState (pair_of at.now) s told.new result }
    ensures kept { result ≢ ok → told.new ≡ told.old }
{
    match pair_of(at) {
        None => FAMILY,
        Some(pair) => match stack.front(&pair) {
            None => NO_CONNECTION,
            Some(front) => {
                *told = state_of(front);
                OK
            }
        },
    }
}

/// Whether the connection of the pair has heard nothing for so long.
fn is_overdue(stack: &CountedStack, at: &CPair, now: u64, told: &mut bool) -> i32
    ensures told { (s : StackState) → IsAt stack.now s → IsOverdue (pair_of at.now) now s told.new result }
    ensures kept { result ≢ ok → told.new ≡ told.old }
{
    match pair_of(at) {
        None => FAMILY,
        Some(pair) => {
            *told = stack.is_overdue(&pair, now);
            OK
        }
    }
}

/// When `aotcp_output` is to be called at the latest, in milliseconds since 1970, once it has nothing
/// more to hand out.
#[unsafe(no_mangle)]
pub extern "C" fn aotcp_deadline(alloc: Global, handle: &mut Handle, at: &mut u64) -> i32
    ensures unchanged { stack_in handle.new ≡ stack_in handle.old }
    ensures told { OnStack (stack_in handle.old) (stack_in handle.new) result (λ p q. (s : StackState) → IsAt p s
        → Tells (next_deadline s) at.new result) }
    ensures kept { result ≢ ok → at.new ≡ at.old }
{
    match mem::replace(handle, Handle::none()).into_box(alloc) {
        Some(b) => {
            let code = deadline(&b, at);
            *handle = Handle::of(b);
            code
        }
        None => NO_STACK,
    }
}

/// Where the end of the pair stands.
#[unsafe(no_mangle)]
pub extern "C" fn aotcp_state(
    alloc: Global,
    handle: &mut Handle,
    pair: &CPair,
    told: &mut CState,
) -> i32
    ensures unchanged { stack_in handle.new ≡ stack_in handle.old }
    ensures told { OnStack (stack_in handle.old) (stack_in handle.new) result (λ p q. (s : StackState) → IsAt p s
        → IsState (pair_of pair.now) s told.new result) }
    ensures kept { result ≢ ok → told.new ≡ told.old }
{
    match mem::replace(handle, Handle::none()).into_box(alloc) {
        Some(b) => {
            let code = state(&b, pair, told);
            *handle = Handle::of(b);
            code
        }
        None => NO_STACK,
    }
}

/// Whether the connection of the pair has heard nothing of its peer at `now`, in milliseconds since
/// 1970, for five minutes while it waits for it.
#[unsafe(no_mangle)]
pub extern "C" fn aotcp_is_overdue(
    alloc: Global,
    handle: &mut Handle,
    pair: &CPair,
    now: u64,
    told: &mut bool,
) -> i32
    ensures unchanged { stack_in handle.new ≡ stack_in handle.old }
    ensures told { OnStack (stack_in handle.old) (stack_in handle.new) result (λ p q. (s : StackState) → IsAt p s
        → IsOverdue (pair_of pair.now) now s told.new result) }
    ensures kept { result ≢ ok → told.new ≡ told.old }
{
    match mem::replace(handle, Handle::none()).into_box(alloc) {
        Some(b) => {
            let code = is_overdue(&b, pair, now, told);
            *handle = Handle::of(b);
            code
        }
        None => NO_STACK,
    }
}
