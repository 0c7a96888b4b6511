//! What a shim counted, as a C program sees it.
ghost use Rattle.std.specs.Prelude.{◌≡◌, ◌≢◌};
ghost use Rattle.aotcp_c.specs.Codes.{ok};
ghost use Rattle.aotcp_c.specs.Shims.{OnShim, shim_in, told_counts, told_faults, told_verdicts};

use crate::codes::{NO_STACK, OK};
use crate::shim_handle::ShimHandle;
use shim_pairs::{Counters, FaultCounters, VerdictCounters};
use std::alloc::Global;
use std::mem;

/// How many times bytes were no datagram, by why.
#[repr(C)]
#[derive(Clone, Copy)]
pub struct CFaultCounters {
    pub truncated: u64,
    pub version: u64,
    pub header_length: u64,
    pub header_checksum: u64,
    pub fragment: u64,
    pub not_tcp: u64,
    pub extension_header: u64,
    pub data_offset: u64,
    pub bad_option: u64,
}

/// How many segments TCP-AO refused, by why.
#[repr(C)]
#[derive(Clone, Copy)]
pub struct CVerdictCounters {
    pub no_ao: u64,
    pub two_ao: u64,
    pub with_md5: u64,
    pub no_tuple: u64,
    pub expired: u64,
    pub mac_length: u64,
    pub no_context: u64,
    pub range: u64,
    pub bad_mac: u64,
}

/// How many datagrams of the own kernel went on, and how many didn't, by why.
#[repr(C)]
#[derive(Clone, Copy)]
pub struct CLeavingCounters {
    pub passed: u64,
    pub bad: CFaultCounters,
    pub no_node: u64,
    pub unkeyed: u64,
    pub has_option: u64,
    pub no_context: u64,
    pub range: u64,
    pub no_key: u64,
    pub no_room: u64,
    pub too_long: u64,
}

/// How many datagrams from the network went on, and how many didn't, by why.
#[repr(C)]
#[derive(Clone, Copy)]
pub struct CArrivingCounters {
    pub passed: u64,
    pub bad: CFaultCounters,
    pub no_node: u64,
    pub unkeyed: u64,
    pub checksum: u64,
    pub refused: CVerdictCounters,
    pub icmp: u64,
}

/// What a shim counted since it was made.
#[repr(C)]
#[derive(Clone, Copy)]
pub struct CShimCounters {
    pub leaving: CLeavingCounters,
    pub arriving: CArrivingCounters,
}

fn told_faults(counters: FaultCounters) -> CFaultCounters
    ensures { result ≡ told_faults counters }
{
    CFaultCounters {
        truncated: counters.truncated,
        version: counters.version,
        header_length: counters.header_length,
        header_checksum: counters.header_checksum,
        fragment: counters.fragment,
        not_tcp: counters.not_tcp,
        extension_header: counters.extension_header,
        data_offset: counters.data_offset,
        bad_option: counters.bad_option,
    }
}

fn told_verdicts(counters: VerdictCounters) -> CVerdictCounters
    ensures { result ≡ told_verdicts counters }
{
    CVerdictCounters {
        no_ao: counters.no_ao,
        two_ao: counters.two_ao,
        with_md5: counters.with_md5,
        no_tuple: counters.no_tuple,
        expired: counters.expired,
        mac_length: counters.mac_length,
        no_context: counters.no_context,
        range: counters.range,
        bad_mac: counters.bad_mac,
    }
}

fn told_counts(counters: Counters) -> CShimCounters
    ensures { result ≡ told_counts counters }
{
    let Counters { leaving, arriving } = counters;
    CShimCounters {
        leaving: CLeavingCounters {
            passed: leaving.sealed,
            bad: told_faults(leaving.bad),
            no_node: leaving.no_node,
            unkeyed: leaving.unkeyed,
            has_option: leaving.signed,
            no_context: leaving.no_context,
            range: leaving.range,
            no_key: leaving.no_key,
            no_room: leaving.no_room,
            too_long: leaving.too_long,
        },
        arriving: CArrivingCounters {
            passed: arriving.opened,
            bad: told_faults(arriving.bad),
            no_node: arriving.no_node,
            unkeyed: arriving.unkeyed,
            checksum: arriving.checksum,
            refused: told_verdicts(arriving.refused),
            icmp: arriving.icmp,
        },
    }
}

/// What the shim counted since it was made.
#[unsafe(no_mangle)]
pub extern "C" fn aotcp_shim_counters(
    alloc: Global,
    handle: &mut ShimHandle,
    told: &mut CShimCounters,
) -> i32
    ensures told { OnShim (shim_in handle.old) (shim_in handle.new) result
        (λ h k. (result ≡ ok) × (told.new ≡ told_counts h.counters) × (k ≡ h)) }
    ensures kept { result ≢ ok → told.new ≡ told.old }
{
    match mem::replace(handle, ShimHandle::none()).into_box(alloc) {
        Some(b) => {
            *told = told_counts(b.counters());
            *handle = ShimHandle::of(b);
            OK
        }
        None => NO_STACK,
    }
}
