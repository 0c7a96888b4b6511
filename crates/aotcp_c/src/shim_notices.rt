//! A datagram that came as ICMP.
ghost use Rattle.std.specs.Prelude.{◌≡◌, ◌≢◌};
ghost use Rattle.aotcp_c.specs.Codes.{ok};
ghost use Rattle.aotcp_c.specs.Shims.{Ignores, OnShim, shim_in};

use crate::codes::{NO_STACK, OK};
use crate::shim_handle::ShimHandle;
use std::alloc::Global;
use std::mem;

/// Whether a datagram from the network that came as ICMP is to be kept from the own kernel.
#[unsafe(no_mangle)]
pub extern "C" fn aotcp_shim_icmp(
    alloc: Global,
    handle: &mut ShimHandle,
    datagram: &[u8],
    ignored: &mut bool,
) -> i32
    ensures ignores { OnShim (shim_in handle.old) (shim_in handle.new) result
        (λ h k. Ignores h k datagram.now ignored.new result) }
    ensures kept { result ≢ ok → ignored.new ≡ ignored.old }
{
    match mem::replace(handle, ShimHandle::none()).into_box(alloc) {
        Some(mut b) => {
            *ignored = b.ignores(datagram);
            *handle = ShimHandle::of(b);
            OK
        }
        None => NO_STACK,
    }
}
