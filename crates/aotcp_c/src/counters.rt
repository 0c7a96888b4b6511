//! What was counted is told.
ghost use Rattle.std.specs.Prelude.{◌≡◌, ◌≢◌};
ghost use Rattle.book_stack.specs.Counters.{StackCounts};
ghost use Rattle.book_stack.specs.Stacks.{StackState};
ghost use Rattle.ao_stack.specs.CountersStands.{Stands};
ghost use Rattle.aotcp_c.specs.Calls.{OnStack};
ghost use Rattle.aotcp_c.specs.Codes.{ok};
ghost use Rattle.aotcp_c.specs.Counters.{IsTally, told_counters, told_ids, TellsNode};
ghost use Rattle.aotcp_c.specs.Handles.{stack_in};
ghost use Rattle.aotcp_c.specs.Shapes.{pair_of};

use crate::codes::{FAMILY, NO_CONNECTION, NO_STACK, OK};
use crate::handle::Handle;
use crate::pairs::pair_of;
use crate::shapes::{CCounters, CKeyIds, CPair};
use ao_stack::{CountedStack, Counters, KeyIds, KeyIdsSeen};
use std::alloc::Global;
use std::mem;

/// The key ids of a segment, as a C program sees them.
fn told_ids(ids: Option<KeyIds>) -> CKeyIds
    ensures { result ≡ told_ids ids }
{
    match ids {
        None => CKeyIds {
            there: false,
            key_id: 0,
            rnext_key_id: 0,
        },
        Some(ids) => CKeyIds {
            there: true,
            key_id: ids.key_id,
            rnext_key_id: ids.rnext_key_id,
        },
    }
}

/// Counters and key ids, as a C program sees them.
fn told_counters(counters: Counters, seen: KeyIdsSeen) -> CCounters
    ensures { result ≡ told_counters counters seen }
{
    CCounters {
        passed: counters.passed,
        bad: counters.bad,
        foreign: counters.foreign,
        checksum: counters.checksum,
        closed: counters.closed,
        no_ao: counters.no_ao,
        two_ao: counters.two_ao,
        with_md5: counters.with_md5,
        no_row: counters.no_tuple,
        expired: counters.expired,
        mac_length: counters.mac_length,
        no_context: counters.no_context,
        range: counters.range,
        bad_mac: counters.bad_mac,
        no_connection: counters.no_connection,
        knocks: counters.knocks,
        sent: counters.sent,
        sent_again: counters.sent_again,
        ids_sent: told_ids(seen.sent),
        ids_heard: told_ids(seen.heard),
    }
}

/// What was counted of the connection of the pair.
fn counters(stack: &CountedStack, at: &CPair, told: &mut CCounters) -> i32
    ensures told { (s : StackState) (n : StackCounts) → Stands stack.now s n
        → IsTally (pair_of at.now) s n told.new result }
    ensures kept { result ≢ ok → told.new ≡ told.old }
{
    match pair_of(at) {
        None => FAMILY,
        Some(pair) => match stack.counters(&pair) {
            None => NO_CONNECTION,
            Some(tally) => {
                *told = told_counters(tally.counters, tally.ids);
                OK
            }
        },
    }
}

/// What was counted of the node.
fn node_counters(stack: &CountedStack, told: &mut CCounters) -> i32
    ensures told { (s : StackState) (n : StackCounts) → Stands stack.now s n → TellsNode s n told.new result }
    ensures kept { result ≢ ok → told.new ≡ told.old }
{
    let seen = KeyIdsSeen {
        sent: None,
        heard: None,
    };
    *told = told_counters(stack.node_counters(), seen);
    OK
}

/// What was counted of the connection of the pair since it began, and the key ids that it sent and heard
/// last.
#[unsafe(no_mangle)]
pub extern "C" fn aotcp_counters(
    alloc: Global,
    handle: &mut Handle,
    pair: &CPair,
    told: &mut CCounters,
) -> i32
    ensures unchanged { stack_in handle.new ≡ stack_in handle.old }
    ensures told { OnStack (stack_in handle.old) (stack_in handle.new) result
        (λ p q. (s : StackState) (n : StackCounts) → Stands p s n
        → IsTally (pair_of pair.now) s n told.new result) }
    ensures kept { result ≢ ok → told.new ≡ told.old }
{
    match mem::replace(handle, Handle::none()).into_box(alloc) {
        Some(b) => {
            let code = counters(&b, pair, told);
            *handle = Handle::of(b);
            code
        }
        None => NO_STACK,
    }
}

/// What was counted of all that happened at the node.
#[unsafe(no_mangle)]
pub extern "C" fn aotcp_node_counters(
    alloc: Global,
    handle: &mut Handle,
    told: &mut CCounters,
) -> i32
    ensures unchanged { stack_in handle.new ≡ stack_in handle.old }
    ensures told { OnStack (stack_in handle.old) (stack_in handle.new) result
        (λ p q. (s : StackState) (n : StackCounts) → Stands p s n
        → TellsNode s n told.new result) }
    ensures kept { result ≢ ok → told.new ≡ told.old }
{
    match mem::replace(handle, Handle::none()).into_box(alloc) {
        Some(b) => {
            let code = node_counters(&b, told);
            *handle = Handle::of(b);
            code
        }
        None => NO_STACK,
    }
}
