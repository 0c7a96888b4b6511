//! Datagrams pass through a shim.
ghost use Rattle.std.specs.Prelude.{◌≡◌, ◌≢◌, ◌<◌};
ghost use Rattle.aotcp_c.specs.Codes.{ok};
ghost use Rattle.aotcp_c.specs.Shims.{HandsIn, HandsOut, OnShim, has_room, length_after, shim_in};

use crate::codes::{NO_STACK, OK, ROOM};
use crate::shim_handle::ShimHandle;
use crate::shim_numbers::{left_pair, left_told, reached_pair, reached_told};
use crate::shim_shapes::CShimTold;
use ao_base::Steps;
use shim_pairs::{Passed, Shim};
use std::alloc::Global;
use std::marker::Brand;
use std::mem;
use std::sync::ledger::{Blank, Ledger};

/// How many bytes more than the datagram the buffer must have.
const MORE: usize = 20;

/// Whether a datagram of so many bytes stands in front of a buffer that has 20 bytes more.
fn has_room(count: usize, buffer: &[u8]) -> bool
    ensures { result ≡ has_room count buffer.now }
{
    buffer.len() >= MORE && buffer.len() - MORE >= count
}

/// How many bytes stand in front of the buffer then.
fn length_after<E: Copy>(before: usize, answer: Result<Passed, E>) -> usize
    ensures { result ≡ length_after before answer }
{
    match answer {
        Ok(passed) => passed.length,
        Err(_) => before,
    }
}

/// A datagram of the own kernel.
fn hand_out<L: Ledger>(
    blank: Blank,
    shim: &mut Shim,
    now: u64,
    buffer: &mut [u8],
    count: &mut usize,
    told: &mut CShimTold,
) -> i32
    requires name { blank.name ≡ L.name }
    requires parts { blank.parts ≡ L.parts }
    requires part { 0 < blank.parts }
    ensures hands { HandsOut now shim.old shim.new count.old count.new buffer.old buffer.new told.new result }
    ensures kept { result ≢ ok → told.new ≡ told.old }
{
    let before = *count;
    if !has_room(before, buffer) {
        return ROOM;
    }
    let pair = left_pair(&buffer[..before]);
    let mut steps = Steps::<L>::new(blank);
    let answer = shim.outbound(now, buffer, before, &mut steps);
    *count = length_after(before, answer);
    *told = left_told(pair, answer);
    OK
}

/// A datagram from the network.
fn hand_in<L: Ledger>(
    blank: Blank,
    shim: &mut Shim,
    now: u64,
    mtu: u16,
    buffer: &mut [u8],
    count: &mut usize,
    told: &mut CShimTold,
) -> i32
    requires name { blank.name ≡ L.name }
    requires parts { blank.parts ≡ L.parts }
    requires part { 0 < blank.parts }
    ensures hands { HandsIn now mtu shim.old shim.new count.old count.new buffer.old buffer.new told.new result }
    ensures kept { result ≢ ok → told.new ≡ told.old }
{
    let before = *count;
    if !has_room(before, buffer) {
        return ROOM;
    }
    let pair = reached_pair(&buffer[..before]);
    let mut steps = Steps::<L>::new(blank);
    let answer = shim.inbound(mtu, now, buffer, before, &mut steps);
    *count = length_after(before, answer);
    *told = reached_told(pair, answer);
    OK
}

/// A datagram of the own kernel at `now`, in seconds since 1970, the first `count` bytes of `buffer`, which has 20
/// bytes more: what is sent in its place stands there then, and `count` says how many bytes that are.
#[unsafe(no_mangle)]
pub extern "C" fn aotcp_shim_outbound(
    alloc: Global,
    handle: &mut ShimHandle,
    now: u64,
    buffer: &mut [u8],
    count: &mut usize,
    told: &mut CShimTold,
) -> i32
    ensures hands { OnShim (shim_in handle.old) (shim_in handle.new) result
        (λ h k. HandsOut now h k count.old count.new buffer.old buffer.new told.new result) }
    ensures kept { result ≢ ok → told.new ≡ told.old }
{
    match mem::replace(handle, ShimHandle::none()).into_box(alloc) {
        Some(mut b) => {
            let code = hand_out::<Brand>(Blank::new(1), &mut b, now, buffer, count, told);
            *handle = ShimHandle::of(b);
            code
        }
        None => NO_STACK,
    }
}

/// A datagram from the network at `now`, in seconds since 1970, which came over a device with this MTU, the first
/// `count` bytes of `buffer`, which has 20 bytes more: what the own kernel takes in its place stands there then, and
/// `count` says how many bytes that are.
#[unsafe(no_mangle)]
pub extern "C" fn aotcp_shim_inbound(
    alloc: Global,
    handle: &mut ShimHandle,
    now: u64,
    mtu: u16,
    buffer: &mut [u8],
    count: &mut usize,
    told: &mut CShimTold,
) -> i32
    ensures hands { OnShim (shim_in handle.old) (shim_in handle.new) result
        (λ h k. HandsIn now mtu h k count.old count.new buffer.old buffer.new told.new result) }
    ensures kept { result ≢ ok → told.new ≡ told.old }
{
    match mem::replace(handle, ShimHandle::none()).into_box(alloc) {
        Some(mut b) => {
            let code = hand_in::<Brand>(Blank::new(1), &mut b, now, mtu, buffer, count, told);
            *handle = ShimHandle::of(b);
            code
        }
        None => NO_STACK,
    }
}
