//! Stacks are made and freed.
ghost use Rattle.std.specs.Prelude.{◌≡◌, ◌≢◌, ◌≤◌, true, Some, None, Err, IfOk, IfSome, is_some, if◌then◌else◌};
ghost use Rattle.std.specs.List.{find};
ghost use Rattle.book_cmd_node.specs.NodeRuns.{most_ends};
ghost use Rattle.book_keys.specs.Plans.{rows_at};
ghost use Rattle.book_keys.specs.Rows.{has_address};
ghost use Rattle.book_stack.specs.Counters.{no_stack_counts};
ghost use Rattle.book_stack.specs.Stacks.{empty_stack};
ghost use Rattle.ao_stack.specs.CountersStands.{Stands};
ghost use Rattle.aotcp_c.specs.Calls.{Opens};
ghost use Rattle.aotcp_c.specs.Codes.{bad_keys, no_stack, ok};
ghost use Rattle.aotcp_c.specs.Handles.{stack_in};
ghost use Rattle.aotcp_c.specs.KeyFiles.{Makes, MakesAt, MakesOf, ReadsKeys, code_in};
ghost use Rattle.aotcp_c.specs.Shapes.{address_of};

use crate::codes::{FAMILY, FAULT, HELD, MEMORY, MOST, NO_NODE, NO_STACK, OK};
use crate::faults::fault_of;
use crate::handle::Handle;
use crate::pairs::address_of;
use crate::shapes::{CAddress, CFault};
use ao_stack::CountedStack;
use book_base::Address;
use key_table::{Table, Tables, read_tables};
use std::alloc::Global;
use std::mem;

/// The most connections that a stack holds.
const MOST_ENDS: u16 = 1024;

/// The table of the node with this address is taken out of the tables; an empty one where no node has
/// it.
fn take_table(alloc: Global, tables: &mut Tables, address: Address) -> Table
    ensures { result.rows ≡ rows_at tables.old address }
{
    match tables.table_mut(&address) {
        Some(table) => mem::replace(table, Table::empty(alloc, address)),
        None => Table::empty(alloc, address),
    }
}

/// A stack in a box for the node of the address. The code says why there is none.
fn boxed(
    alloc: Global,
    tables: &mut Tables,
    address: Address,
    most: u16,
) -> Result<Box<CountedStack, Global>, i32>
    requires low { 1 ≤ most }
    requires high { most ≤ most_ends }
    ensures opens { IfOk result (λ b. Stands b.value (empty_stack (rows_at tables.old address) most) no_stack_counts) }
    ensures failed { result ≢ Err ok }
    ensures code { MakesOf (find (has_address address) tables.old) (code_in result) }
{
    if tables.table(&address).is_none() {
        return Err(NO_NODE);
    }
    let table = take_table(alloc, tables, address);
    match CountedStack::new(alloc, table, most) {
        Err(_) => Err(MEMORY),
        Ok(stack) => match Box::new(alloc, stack) {
            Err(_) => Err(MEMORY),
            Ok(b) => Ok(b),
        },
    }
}

/// A stack in a box for the node of the address in a key file. The code says why there is none.
fn made(
    alloc: Global,
    text: &[u8],
    address: Address,
    most: u16,
    fault: &mut CFault,
) -> Result<Box<CountedStack, Global>, i32>
    requires low { 1 ≤ most }
    requires high { most ≤ most_ends }
    ensures opens { IfOk result (λ b. Opens text.now address most b.value) }
    ensures failed { result ≢ Err ok }
    ensures code { ReadsKeys text.now fault.new (code_in result)
        (λ tables. MakesOf (find (has_address address) tables) (code_in result)) }
    ensures fault { code_in result ≢ bad_keys → fault.new ≡ fault.old }
{
    match read_tables(alloc, text) {
        Err(why) => {
            *fault = fault_of(why);
            Err(FAULT)
        }
        Ok(mut tables) => match boxed(alloc, &mut tables, address, most) {
            Err(code) => Err(code),
            Ok(b) => Ok(b),
        },
    }
}

/// A stack in a handle that holds none, for the node of the address in a key file.
fn put(
    alloc: Global,
    handle: &mut Handle,
    text: &[u8],
    address: Address,
    most: u16,
    fault: &mut CFault,
) -> i32
    requires low { 1 ≤ most }
    requires high { most ≤ most_ends }
    ensures opens { result ≡ ok → IfSome (stack_in handle.new) (λ k. Opens text.now address most k) }
    ensures held { result ≡ ok → is_some (stack_in handle.new) ≡ true }
    ensures stays { result ≢ ok → stack_in handle.new ≡ stack_in handle.old }
    ensures code { MakesAt (Some address) (stack_in handle.old) text.now fault.new result }
    ensures fault { result ≢ bad_keys → fault.new ≡ fault.old }
{
    match mem::replace(handle, Handle::none()).into_box(alloc) {
        Some(b) => {
            *handle = Handle::of(b);
            HELD
        }
        None => match made(alloc, text, address, most, fault) {
            Err(code) => code,
            Ok(b) => {
                *handle = Handle::of(b);
                OK
            }
        },
    }
}

/// A stack without connections, which holds at most `most`, 1 to 1,024, for the node of the address in
/// a key file. The handle holds it then; after any other answer it is as it was.
#[unsafe(no_mangle)]
pub extern "C" fn aotcp_new(
    alloc: Global,
    handle: &mut Handle,
    text: &[u8],
    node: &CAddress,
    most: u16,
    fault: &mut CFault,
) -> i32
    ensures opens { result ≡ ok → IfSome (stack_in handle.new)
        (λ k. IfSome (address_of node.now) (λ a. Opens text.now a most k)) }
    ensures held { result ≡ ok → is_some (stack_in handle.new) ≡ true }
    ensures there { result ≡ ok → is_some (address_of node.now) ≡ true }
    ensures before { result ≡ ok → stack_in handle.old ≡ None }
    ensures stays { result ≢ ok → stack_in handle.new ≡ stack_in handle.old }
    ensures code { Makes most (address_of node.now) (stack_in handle.old) text.now fault.new result }
    ensures fault { result ≢ bad_keys → fault.new ≡ fault.old }
{
    if most < 1 {
        return MOST;
    }
    if most > MOST_ENDS {
        return MOST;
    }
    match address_of(node) {
        None => FAMILY,
        Some(address) => put(alloc, handle, text, address, most, fault),
    }
}

/// Frees the stack, with its connections and its keys.
#[unsafe(no_mangle)]
pub extern "C" fn aotcp_free(alloc: Global, handle: &mut Handle) -> i32
    ensures code { result ≡ (if is_some (stack_in handle.old) then ok else no_stack) }
    ensures freed { stack_in handle.new ≡ None }
{
    match mem::replace(handle, Handle::none()).into_box(alloc) {
        None => NO_STACK,
        Some(_) => OK,
    }
}
