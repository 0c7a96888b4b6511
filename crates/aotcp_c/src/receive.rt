//! Bytes that were received are taken.
ghost use Rattle.std.specs.Prelude.{◌≡◌, ◌≢◌};
ghost use Rattle.book_stack.specs.Counters.{StackCounts};
ghost use Rattle.book_stack.specs.Stacks.{StackState};
ghost use Rattle.ao_stack.specs.CountersStands.{Stands};
ghost use Rattle.aotcp_c.specs.Calls.{OnStack, Reads};
ghost use Rattle.aotcp_c.specs.Codes.{ok};
ghost use Rattle.aotcp_c.specs.Handles.{stack_in};
ghost use Rattle.aotcp_c.specs.Shapes.{pair_of};

use crate::codes::{FAMILY, NO_CONNECTION, NO_STACK, OK};
use crate::handle::Handle;
use crate::pairs::pair_of;
use crate::shapes::{CPair, CTaken};
use ao_stack::CountedStack;
use std::alloc::Global;
use std::mem;

/// The first bytes of the pair are moved to the front of `room`.
fn read(stack: &mut CountedStack, at: &CPair, room: &mut [u8], told: &mut CTaken) -> i32
    ensures reads { (s : StackState) (n : StackCounts) → Stands stack.old s n
        → Reads stack.new (pair_of at.now) room.old room.new told.new s n result }
    ensures kept { result ≢ ok → told.new ≡ told.old }
    ensures room { result ≢ ok → room.new ≡ room.old }
{
    match pair_of(at) {
        None => FAMILY,
        Some(pair) => match stack.take(&pair, room) {
            None => NO_CONNECTION,
            Some(taken) => {
                *told = CTaken {
                    count: taken.count,
                    at_end: taken.at_end,
                };
                OK
            }
        },
    }
}

/// The first bytes that the connection of the pair received are moved to the front of `room`, as many
/// as are ready and fit.
#[unsafe(no_mangle)]
pub extern "C" fn aotcp_read(
    alloc: Global,
    handle: &mut Handle,
    pair: &CPair,
    room: &mut [u8],
    told: &mut CTaken,
) -> i32
    ensures reads { OnStack (stack_in handle.old) (stack_in handle.new) result
        (λ p q. (s : StackState) (n : StackCounts) → Stands p s n
        → Reads q (pair_of pair.now) room.old room.new told.new s n result) }
    ensures kept { result ≢ ok → told.new ≡ told.old }
    ensures room { result ≢ ok → room.new ≡ room.old }
{
    match mem::replace(handle, Handle::none()).into_box(alloc) {
        Some(mut b) => {
            let code = read(&mut b, pair, room, told);
            *handle = Handle::of(b);
            code
        }
        None => NO_STACK,
    }
}
