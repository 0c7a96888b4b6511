//! The connection of a pair is called.
ghost use Rattle.std.specs.Prelude.{◌≡◌};
ghost use Rattle.book_cmd_node.specs.declared.node.Act.TheVariants as act;
ghost use Rattle.book_stack.specs.Counters.{StackCounts};
ghost use Rattle.book_stack.specs.Stacks.{StackState};
ghost use Rattle.ao_stack.specs.CountersStands.{Stands};
ghost use Rattle.aotcp_c.specs.Calls.{CallsAt, OnStack};
ghost use Rattle.aotcp_c.specs.Handles.{stack_in};
ghost use Rattle.aotcp_c.specs.Shapes.{pair_of};

use crate::codes::{FAMILY, NO_STACK, done_code, given_code};
use crate::handle::Handle;
use crate::pairs::pair_of;
use crate::shapes::CPair;
use ao_stack::CountedStack;
use std::alloc::Global;
use std::mem;

/// A piece is given to the connection of the pair.
fn write(stack: &mut CountedStack, at: &CPair, piece: &[u8]) -> i32
    ensures { (s : StackState) (n : StackCounts) → Stands stack.old s n
        → CallsAt stack.new (pair_of at.now) (act.Give piece.now) s n result }
{
    match pair_of(at) {
        None => FAMILY,
        Some(pair) => given_code(stack.give(&pair, piece)),
    }
}

/// The connection of the pair takes no more bytes to send.
fn close(stack: &mut CountedStack, at: &CPair) -> i32
    ensures { (s : StackState) (n : StackCounts) → Stands stack.old s n
        → CallsAt stack.new (pair_of at.now) act.Close s n result }
{
    match pair_of(at) {
        None => FAMILY,
        Some(pair) => done_code(stack.close(&pair)),
    }
}

/// The connection of the pair is closed at once.
fn abort(stack: &mut CountedStack, at: &CPair) -> i32
    ensures { (s : StackState) (n : StackCounts) → Stands stack.old s n
        → CallsAt stack.new (pair_of at.now) act.Abort s n result }
{
    match pair_of(at) {
        None => FAMILY,
        Some(pair) => done_code(stack.abort(&pair)),
    }
}

/// The connection of the pair is dropped.
fn remove(stack: &mut CountedStack, at: &CPair) -> i32
    ensures { (s : StackState) (n : StackCounts) → Stands stack.old s n
        → CallsAt stack.new (pair_of at.now) act.Remove s n result }
{
    match pair_of(at) {
        None => FAMILY,
        Some(pair) => done_code(stack.remove(&pair)),
    }
}

/// A piece is given to the connection of the pair, all of it or nothing.
#[unsafe(no_mangle)]
pub extern "C" fn aotcp_write(alloc: Global, handle: &mut Handle, pair: &CPair, piece: &[u8]) -> i32
    ensures { OnStack (stack_in handle.old) (stack_in handle.new) result
        (λ p q. (s : StackState) (n : StackCounts) → Stands p s n
        → CallsAt q (pair_of pair.now) (act.Give piece.now) s n result) }
{
    match mem::replace(handle, Handle::none()).into_box(alloc) {
        Some(mut b) => {
            let code = write(&mut b, pair, piece);
            *handle = Handle::of(b);
            code
        }
        None => NO_STACK,
    }
}

/// The connection of the pair takes no more bytes to send.
#[unsafe(no_mangle)]
pub extern "C" fn aotcp_close(alloc: Global, handle: &mut Handle, pair: &CPair) -> i32
    ensures { OnStack (stack_in handle.old) (stack_in handle.new) result
        (λ p q. (s : StackState) (n : StackCounts) → Stands p s n
        → CallsAt q (pair_of pair.now) act.Close s n result) }
{
    match mem::replace(handle, Handle::none()).into_box(alloc) {
        Some(mut b) => {
            let code = close(&mut b, pair);
            *handle = Handle::of(b);
            code
        }
        None => NO_STACK,
    }
}

/// The connection of the pair is closed at once.
#[unsafe(no_mangle)]
pub extern "C" fn aotcp_abort(alloc: Global, handle: &mut Handle, pair: &CPair) -> i32
    ensures { OnStack (stack_in handle.old) (stack_in handle.new) result
        (λ p q. (s : StackState) (n : StackCounts) → Stands p s n
        → CallsAt q (pair_of pair.now) act.Abort s n result) }
{
    match mem::replace(handle, Handle::none()).into_box(alloc) {
        Some(mut b) => {
            let code = abort(&mut b, pair);
            *handle = Handle::of(b);
            code
        }
        None => NO_STACK,
    }
}

/// The connection of the pair is dropped, with all that is kept of it.
#[unsafe(no_mangle)]
pub extern "C" fn aotcp_remove(alloc: Global, handle: &mut Handle, pair: &CPair) -> i32
    ensures { OnStack (stack_in handle.old) (stack_in handle.new) result
        (λ p q. (s : StackState) (n : StackCounts) → Stands p s n
        → CallsAt q (pair_of pair.now) act.Remove s n result) }
{
    match mem::replace(handle, Handle::none()).into_box(alloc) {
        Some(mut b) => {
            let code = remove(&mut b, pair);
            *handle = Handle::of(b);
            code
        }
        None => NO_STACK,
    }
}
