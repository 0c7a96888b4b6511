//! A shim goes on with other keys.
ghost use Rattle.std.specs.Prelude.{◌≡◌, ◌≢◌, ◌⊎◌};
ghost use Rattle.aotcp_c.specs.Codes.{bad_keys, no_memory, ok};
ghost use Rattle.aotcp_c.specs.KeyFiles.{ReadsKeys};
ghost use Rattle.aotcp_c.specs.Shims.{GoesOn, OnShim, Rekeys, shim_in};

use crate::codes::{FAULT, MEMORY, NO_STACK, OK};
use crate::faults::fault_of;
use crate::shapes::CFault;
use crate::shim_handle::ShimHandle;
use key_table::read_tables;
use shim_pairs::Shim;
use std::alloc::Global;
use std::mem;

/// The shim goes on with the nodes of a key file.
fn rekey(alloc: Global, shim: &mut Shim, now: u64, text: &[u8], fault: &mut CFault) -> i32
    ensures goes_on { result ≡ ok → GoesOn now text.now shim.old shim.new }
    ensures stays { result ≢ ok → shim.new ≡ shim.old }
    ensures code { ReadsKeys text.now fault.new result (λ tables. (result ≡ ok) ⊎ (result ≡ no_memory)) }
    ensures fault { result ≢ bad_keys → fault.new ≡ fault.old }
{
    match read_tables(alloc, text) {
        Err(why) => {
            *fault = fault_of(why);
            FAULT
        }
        Ok(tables) => match shim.rekey(alloc, now, tables) {
            Err(_) => MEMORY,
            Ok(()) => OK,
        },
    }
}

/// The shim goes on at `now`, in seconds since 1970, with the nodes of a key file: each connection is brought back
/// whose own address a node has. After any other answer than 0 all is as it was.
#[unsafe(no_mangle)]
pub extern "C" fn aotcp_shim_keys(
    alloc: Global,
    handle: &mut ShimHandle,
    now: u64,
    text: &[u8],
    fault: &mut CFault,
) -> i32
    ensures keys { OnShim (shim_in handle.old) (shim_in handle.new) result
        (λ h k. Rekeys now text.now fault.new h k result) }
    ensures fault { result ≢ bad_keys → fault.new ≡ fault.old }
{
    match mem::replace(handle, ShimHandle::none()).into_box(alloc) {
        Some(mut b) => {
            let code = rekey(alloc, &mut b, now, text, fault);
            *handle = ShimHandle::of(b);
            code
        }
        None => NO_STACK,
    }
}
