//! Rows are added and withdrawn.
ghost use Rattle.std.specs.Prelude.{◌≡◌, ◌≢◌, ◌≤◌, true, Some, IfOk, IfSome, List, length};
ghost use Rattle.book_keys.specs.Lifetimes.{greatest_time};
ghost use Rattle.book_keys.specs.MasterKeys.{is_master_key};
ghost use Rattle.book_keys.specs.Tables.{IsNewRow};
ghost use Rattle.book_stack.specs.Calls.{Withdraw};
ghost use Rattle.book_stack.specs.Counters.{StackCounts};
ghost use Rattle.book_stack.specs.Stacks.{StackState};
ghost use Rattle.ao_stack.specs.CountersStands.{Stands};
ghost use Rattle.aotcp_c.specs.Calls.{Adds, Answers, OnStack};
ghost use Rattle.aotcp_c.specs.Codes.{ok, overlap};
ghost use Rattle.aotcp_c.specs.Handles.{stack_in};
ghost use Rattle.aotcp_c.specs.RowShapes.{IsRow, algorithm_number, direction_number, is_lifetime, is_row, number_in};

use crate::codes::{MEMORY, NO_STACK, ROW, added_code, withdrawn_code};
use crate::handle::Handle;
use crate::shapes::CRow;
use ao_stack::CountedStack;
use book_base::{Algorithm, Bytes};
use book_keys::{AddRefusal, Direction, LATEST, LONGEST_MASTER_KEY, Lifetime, NewRow};
use std::alloc::{AllocError, Global};
use std::mem;

/// The algorithm of a number below 3.
fn algorithm_of(number: u8) -> Algorithm
    ensures { number ≤ 2 → algorithm_number result ≡ number }
{
    match number {
        0 => Algorithm::HmacSha1,
        1 => Algorithm::AesCmac,
        _ => Algorithm::HmacSha256,
    }
}

/// The direction of a number below 4.
fn direction_of(number: u8) -> Direction
    ensures { number ≤ 3 → direction_number result ≡ number }
{
    match number {
        0 => Direction::Receive,
        1 => Direction::Send,
        2 => Direction::Both,
        _ => Direction::Disabled,
    }
}

/// Whether the times are a lifetime.
fn is_lifetime(first: u64, last: u64) -> bool
    ensures { result ≡ is_lifetime first last }
{
    first <= last && last <= LATEST
}

/// Whether the bytes are a master key.
fn is_master_key(key: &[u8]) -> bool
    ensures { result ≡ is_master_key key.now }
{
    1 <= key.len() && key.len() <= LONGEST_MASTER_KEY
}

/// Whether a row stands so.
fn is_row(row: &CRow, key: &[u8]) -> bool
    ensures { result ≡ is_row row.now key.now }
{
    is_master_key(key)
        && row.algorithm < 3
        && row.direction < 4
        && is_lifetime(row.send_first, row.send_last)
        && is_lifetime(row.accept_first, row.accept_last)
}

/// The row that stands so.
fn new_row(alloc: Global, row: &CRow, key: &[u8]) -> Result<NewRow, AllocError>
    requires { is_row row.now key.now ≡ true }
    ensures row { IfOk result (λ new. IsRow row.now key.now new) }
    ensures may { IfOk result (λ new. IsNewRow new) }
{
    let master = Bytes::from_vec(Vec::from_slice(alloc, key)?);
    Ok(NewRow {
        recv_id: row.recv_id,
        send_id: row.send_id,
        algorithm: algorithm_of(row.algorithm),
        master,
        with_options: row.with_options,
        direction: direction_of(row.direction),
        sending: Lifetime {
            first: row.send_first,
            last: row.send_last,
        },
        accepting: Lifetime {
            first: row.accept_first,
            last: row.accept_last,
        },
    })
}

/// The number of the row that was added, or of the one that overlaps it.
fn number_in(added: Result<u8, AddRefusal>, before: u8) -> u8
    ensures { result ≡ number_in added before }
{
    match added {
        Ok(number) => number,
        Err(AddRefusal::Memory) => before,
        Err(AddRefusal::TooMany) => before,
        Err(AddRefusal::Overlap(number)) => number,
    }
}

/// A row is added that stands so.
fn add(alloc: Global, stack: &mut CountedStack, row: &CRow, key: &[u8], number: &mut u8) -> i32
    ensures adds { (s : StackState) (n : StackCounts) → Stands stack.old s n
        → Adds stack.new row.now key.now s n number.new result }
    ensures kept { result ≢ ok → result ≢ overlap → number.new ≡ number.old }
{
    let stands_so = is_row(row, key);
    if !stands_so {
        return ROW;
    }
    match new_row(alloc, row, key) {
        Err(_) => MEMORY,
        Ok(new) => {
            let added = stack.add(alloc, new);
            *number = number_in(added, *number);
            added_code(added)
        }
    }
}

/// A row is taken out of use.
fn withdraw(stack: &mut CountedStack, number: u8) -> i32
    ensures { (s : StackState) (n : StackCounts) → Stands stack.old s n
        → Answers stack.new (Withdraw number) s n result }
{
    withdrawn_code(stack.withdraw(number))
}

/// Adds a row behind the last one of the table, for any peer and any ports, and tells its number.
#[unsafe(no_mangle)]
pub extern "C" fn aotcp_add(
    alloc: Global,
    handle: &mut Handle,
    row: &CRow,
    key: &[u8],
    number: &mut u8,
) -> i32
    ensures adds { OnStack (stack_in handle.old) (stack_in handle.new) result
        (λ p q. (s : StackState) (n : StackCounts) → Stands p s n
        → Adds q row.now key.now s n number.new result) }
    ensures kept { result ≢ ok → result ≢ overlap → number.new ≡ number.old }
{
    match mem::replace(handle, Handle::none()).into_box(alloc) {
        Some(mut b) => {
            let code = add(alloc, &mut b, row, key, number);
            *handle = Handle::of(b);
            code
        }
        None => NO_STACK,
    }
}

/// Takes a row out of use: it keeps its number, and neither sends nor accepts from now on.
#[unsafe(no_mangle)]
pub extern "C" fn aotcp_withdraw(alloc: Global, handle: &mut Handle, number: u8) -> i32
    ensures { OnStack (stack_in handle.old) (stack_in handle.new) result
        (λ p q. (s : StackState) (n : StackCounts) → Stands p s n
        → Answers q (Withdraw number) s n result) }
{
    match mem::replace(handle, Handle::none()).into_box(alloc) {
        Some(mut b) => {
            let code = withdraw(&mut b, number);
            *handle = Handle::of(b);
            code
        }
        None => NO_STACK,
    }
}
