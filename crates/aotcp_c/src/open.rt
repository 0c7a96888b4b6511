//! Connections begin.
ghost use Rattle.std.specs.Prelude.{◌≡◌};
ghost use Rattle.book_cmd_node.specs.declared.node.Act.TheVariants as act;
ghost use Rattle.book_stack.specs.Counters.{StackCounts};
ghost use Rattle.book_stack.specs.Stacks.{StackState};
ghost use Rattle.ao_stack.specs.CountersStands.{Stands};
ghost use Rattle.aotcp_c.specs.Calls.{Begins, OnStack};
ghost use Rattle.aotcp_c.specs.Handles.{stack_in};
ghost use Rattle.aotcp_c.specs.Shapes.{pair_of};

use crate::codes::{FAMILY, NO_STACK, begun_code};
use crate::handle::Handle;
use crate::pairs::pair_of;
use crate::shapes::CPair;
use ao_stack::CountedStack;
use std::alloc::Global;
use std::mem;

/// A connection of the pair opens actively.
fn open(alloc: Global, stack: &mut CountedStack, at: &CPair, isn: u32) -> i32
    ensures { (s : StackState) (n : StackCounts) → Stands stack.old s n
        → Begins stack.new (pair_of at.now) (act.Open isn) s n result }
{
    match pair_of(at) {
        None => FAMILY,
        Some(pair) => begun_code(stack.open(alloc, pair, isn)),
    }
}

/// A connection of the pair waits for the SYN of its peer.
fn listen(alloc: Global, stack: &mut CountedStack, at: &CPair, isn: u32) -> i32
    ensures { (s : StackState) (n : StackCounts) → Stands stack.old s n
        → Begins stack.new (pair_of at.now) (act.Listen isn) s n result }
{
    match pair_of(at) {
        None => FAMILY,
        Some(pair) => begun_code(stack.listen(alloc, pair, isn)),
    }
}

/// A connection of the pair opens actively, with `isn` as its own initial sequence number.
#[unsafe(no_mangle)]
pub extern "C" fn aotcp_open(alloc: Global, handle: &mut Handle, pair: &CPair, isn: u32) -> i32
    ensures { OnStack (stack_in handle.old) (stack_in handle.new) result
        (λ p q. (s : StackState) (n : StackCounts) → Stands p s n
        → Begins q (pair_of pair.now) (act.Open isn) s n result) }
{
    match mem::replace(handle, Handle::none()).into_box(alloc) {
        Some(mut b) => {
            let code = open(alloc, &mut b, pair, isn);
            *handle = Handle::of(b);
            code
        }
        None => NO_STACK,
    }
}

/// A connection of the pair waits for the SYN of its peer. All else is as for `aotcp_open`.
#[unsafe(no_mangle)]
pub extern "C" fn aotcp_listen(alloc: Global, handle: &mut Handle, pair: &CPair, isn: u32) -> i32
    ensures { OnStack (stack_in handle.old) (stack_in handle.new) result
        (λ p q. (s : StackState) (n : StackCounts) → Stands p s n
        → Begins q (pair_of pair.now) (act.Listen isn) s n result) }
{
    match mem::replace(handle, Handle::none()).into_box(alloc) {
        Some(mut b) => {
            let code = listen(alloc, &mut b, pair, isn);
            *handle = Handle::of(b);
            code
        }
        None => NO_STACK,
    }
}
