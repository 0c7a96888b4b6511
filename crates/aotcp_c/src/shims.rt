//! Shims are made and freed.
ghost use Rattle.std.specs.Prelude.{◌≡◌, ◌≢◌, ◌≤◌, ◌⊎◌, true, None, Err, IfOk, IfSome, is_some, if◌then◌else◌};
ghost use Rattle.aotcp_c.specs.Codes.{bad_keys, no_memory, no_stack, ok};
ghost use Rattle.aotcp_c.specs.KeyFiles.{ReadsKeys, code_in};
ghost use Rattle.aotcp_c.specs.Shims.{MakesShim, MakesShimAt, OpensShim, shim_in};

use crate::codes::{FAULT, HELD, MEMORY, MOST, NO_STACK, OK};
use crate::faults::fault_of;
use crate::shapes::CFault;
use crate::shim_handle::ShimHandle;
use key_table::read_tables;
use shim_pairs::Shim;
use std::alloc::Global;
use std::mem;

/// The most pairs that a shim keeps.
const MOST_PAIRS: u16 = 4096;

/// A shim in a box for the nodes of a key file. The code says why there is none.
fn made_shim(
    alloc: Global,
    text: &[u8],
    most: u16,
    fault: &mut CFault,
) -> Result<Box<Shim, Global>, i32>
    requires low { 1 ≤ most }
    ensures opens { IfOk result (λ b. OpensShim text.now most b.value) }
    ensures failed { result ≢ Err ok }
    ensures code { ReadsKeys text.now fault.new (code_in result)
        (λ tables. (code_in result ≡ ok) ⊎ (code_in result ≡ no_memory)) }
    ensures fault { code_in result ≢ bad_keys → fault.new ≡ fault.old }
{
    match read_tables(alloc, text) {
        Err(why) => {
            *fault = fault_of(why);
            Err(FAULT)
        }
        Ok(tables) => match Shim::new(alloc, tables, most) {
            Err(_) => Err(MEMORY),
            Ok(shim) => match Box::new(alloc, shim) {
                Err(_) => Err(MEMORY),
                Ok(b) => Ok(b),
            },
        },
    }
}

/// A shim in a handle that holds none, for the nodes of a key file.
fn put_shim(
    alloc: Global,
    handle: &mut ShimHandle,
    text: &[u8],
    most: u16,
    fault: &mut CFault,
) -> i32
    requires low { 1 ≤ most }
    ensures opens { result ≡ ok → IfSome (shim_in handle.new) (λ h. OpensShim text.now most h) }
    ensures held { result ≡ ok → is_some (shim_in handle.new) ≡ true }
    ensures stays { result ≢ ok → shim_in handle.new ≡ shim_in handle.old }
    ensures code { MakesShimAt (shim_in handle.old) text.now fault.new result }
    ensures fault { result ≢ bad_keys → fault.new ≡ fault.old }
{
    match mem::replace(handle, ShimHandle::none()).into_box(alloc) {
        Some(b) => {
            *handle = ShimHandle::of(b);
            HELD
        }
        None => match made_shim(alloc, text, most, fault) {
            Err(code) => code,
            Ok(b) => {
                *handle = ShimHandle::of(b);
                OK
            }
        },
    }
}

/// A shim for the nodes of a key file, which keeps at most `most` pairs, 1 to 4,096, and takes all its memory. The
/// handle holds it then; after any other answer it is as it was.
#[unsafe(no_mangle)]
pub extern "C" fn aotcp_shim_new(
    alloc: Global,
    handle: &mut ShimHandle,
    text: &[u8],
    most: u16,
    fault: &mut CFault,
) -> i32
    ensures opens { result ≡ ok → IfSome (shim_in handle.new) (λ h. OpensShim text.now most h) }
    ensures held { result ≡ ok → is_some (shim_in handle.new) ≡ true }
    ensures before { result ≡ ok → shim_in handle.old ≡ None }
    ensures stays { result ≢ ok → shim_in handle.new ≡ shim_in handle.old }
    ensures code { MakesShim most (shim_in handle.old) text.now fault.new result }
    ensures fault { result ≢ bad_keys → fault.new ≡ fault.old }
{
    if most < 1 {
        return MOST;
    }
    if most > MOST_PAIRS {
        return MOST;
    }
    put_shim(alloc, handle, text, most, fault)
}

/// Frees the shim, with what it keeps and its keys.
#[unsafe(no_mangle)]
pub extern "C" fn aotcp_shim_free(alloc: Global, handle: &mut ShimHandle) -> i32
    ensures code { result ≡ (if is_some (shim_in handle.old) then ok else no_stack) }
    ensures freed { shim_in handle.new ≡ None }
{
    match mem::replace(handle, ShimHandle::none()).into_box(alloc) {
        None => NO_STACK,
        Some(_) => OK,
    }
}
