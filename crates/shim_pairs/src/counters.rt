//! What a shim counts.
ghost use Rattle.std.specs.Prelude.{◌≡◌};
ghost use Rattle.shim_pairs.specs.Counting.{arriving_counted, fault_counted, leaving_counted, ignored_counted};
ghost use Rattle.shim_pairs.specs.Counting.{next_count, no_counters, unsent_counted, untaken_counted, verdict_counted};
ghost use Rattle.shim_pairs.specs.Counting.{no_faults, no_verdicts};

use crate::answer::{PairUnsent, PairUntaken, Passed};
use book_endpoint::Refusal;
use book_segments::DatagramFault;
use book_shim::{Unsent, Untaken};

/// How many times bytes were no datagram, by why.
#[derive(Clone, Copy, Debug, PartialEq, Eq)]
pub struct FaultCounters {
    /// Fewer bytes than the IP header or its length field says.
    pub truncated: u64,
    /// Neither IPv4 nor IPv6.
    pub version: u64,
    /// A faulty length of the IPv4 header.
    pub header_length: u64,
    /// A wrong checksum of the IPv4 header.
    pub header_checksum: u64,
    /// A fragment.
    pub fragment: u64,
    /// Another protocol than TCP.
    pub not_tcp: u64,
    /// An extension header of IPv6.
    pub extension_header: u64,
    /// A faulty data offset.
    pub data_offset: u64,
    /// A faulty option of TCP.
    pub bad_option: u64,
}

/// How many segments the check refused, by why.
#[derive(Clone, Copy, Debug, PartialEq, Eq)]
pub struct VerdictCounters {
    /// No TCP-AO option.
    pub no_ao: u64,
    /// More than one TCP-AO option.
    pub two_ao: u64,
    /// TCP MD5 beside TCP-AO.
    pub with_md5: u64,
    /// No row takes segments with its KeyID.
    pub no_tuple: u64,
    /// A row does, but not at this time.
    pub expired: u64,
    /// Its MAC hasn't the length of the row's algorithm.
    pub mac_length: u64,
    /// The initial sequence numbers of its traffic key aren't known.
    pub no_context: u64,
    /// Its number is below 0, or it ends past 2^63.
    pub range: u64,
    /// Its MAC is wrong.
    pub bad_mac: u64,
}

/// How many datagrams of the own kernel were sealed, and how many weren't, by why.
#[derive(Clone, Copy, Debug, PartialEq, Eq)]
pub struct LeavingCounters {
    /// They were sealed.
    pub sealed: u64,
    /// They were no datagrams.
    pub bad: FaultCounters,
    /// No node had the own address.
    pub no_node: u64,
    /// Their sockets weren't those of the pair; a shim never counts one.
    pub foreign: u64,
    /// No row was for the pair, at any time.
    pub unkeyed: u64,
    /// They had an option of TCP-AO or of TCP MD5.
    pub signed: u64,
    /// They belonged to no connection whose initial sequence numbers were known.
    pub no_context: u64,
    /// Their number was below 0, or they ended past 2^63.
    pub range: u64,
    /// No row might send.
    pub no_key: u64,
    /// Their options and that of TCP-AO had more than 40 bytes.
    pub no_room: u64,
    /// With TCP-AO they would have had more bytes than their IP header can say.
    pub too_long: u64,
}

/// How many datagrams from the network were opened, and how many weren't, by why.
#[derive(Clone, Copy, Debug, PartialEq, Eq)]
pub struct ArrivingCounters {
    /// They were opened.
    pub opened: u64,
    /// They were no datagrams.
    pub bad: FaultCounters,
    /// No node had the own address.
    pub no_node: u64,
    /// Their sockets weren't those of the pair; a shim never counts one.
    pub foreign: u64,
    /// No row was for the pair, at any time.
    pub unkeyed: u64,
    /// Their TCP checksum was wrong.
    pub checksum: u64,
    /// The check refused them.
    pub refused: VerdictCounters,
    /// They came as ICMP, and were kept from the own kernel.
    pub icmp: u64,
}

/// What a shim counted since it was made: each datagram that is handed in is counted once. A counter that
/// has come to the greatest number of 64 bits stays there.
#[derive(Clone, Copy, Debug, PartialEq, Eq)]
pub struct Counters {
    pub leaving: LeavingCounters,
    pub arriving: ArrivingCounters,
}

/// Nothing was counted.
fn no_faults() -> FaultCounters
    ensures { result ≡ no_faults }
{
    FaultCounters {
        truncated: 0,
        version: 0,
        header_length: 0,
        header_checksum: 0,
        fragment: 0,
        not_tcp: 0,
        extension_header: 0,
        data_offset: 0,
        bad_option: 0,
    }
}

/// Nothing was counted.
fn no_verdicts() -> VerdictCounters
    ensures { result ≡ no_verdicts }
{
    VerdictCounters {
        no_ao: 0,
        two_ao: 0,
        with_md5: 0,
        no_tuple: 0,
        expired: 0,
        mac_length: 0,
        no_context: 0,
        range: 0,
        bad_mac: 0,
    }
}

/// Nothing was counted.
pub(crate) fn no_counters() -> Counters
    ensures { result ≡ no_counters }
{
    Counters {
        leaving: LeavingCounters {
            sealed: 0,
            bad: no_faults(),
            no_node: 0,
            foreign: 0,
            unkeyed: 0,
            signed: 0,
            no_context: 0,
            range: 0,
            no_key: 0,
            no_room: 0,
            too_long: 0,
        },
        arriving: ArrivingCounters {
            opened: 0,
            bad: no_faults(),
            no_node: 0,
            foreign: 0,
            unkeyed: 0,
            checksum: 0,
            refused: no_verdicts(),
            icmp: 0,
        },
    }
}

/// One more, up to the greatest number.
fn next_count(count: u64) -> u64
    ensures { result ≡ next_count count }
{
    count.saturating_add(1)
}

/// One more was no datagram, for this reason.
fn fault_counted(why: DatagramFault, mut counters: FaultCounters) -> FaultCounters
    ensures { result ≡ fault_counted why counters }
{
    match why {
        DatagramFault::Truncated => counters.truncated = next_count(counters.truncated),
        DatagramFault::Version => counters.version = next_count(counters.version),
        DatagramFault::HeaderLength => counters.header_length = next_count(counters.header_length),
        DatagramFault::HeaderChecksum => counters.header_checksum = next_count(
            counters.header_checksum,
        ),
        DatagramFault::Fragment => counters.fragment = next_count(counters.fragment),
        DatagramFault::NotTcp => counters.not_tcp = next_count(counters.not_tcp),
        DatagramFault::ExtensionHeader => counters.extension_header = next_count(
            counters.extension_header,
        ),
        DatagramFault::DataOffset => counters.data_offset = next_count(counters.data_offset),
        DatagramFault::BadOption(_) => counters.bad_option = next_count(counters.bad_option),
    }
    counters
}

/// The check refused one more, for this reason; a pass is none.
fn verdict_counted(why: Refusal, mut counters: VerdictCounters) -> VerdictCounters
    ensures { result ≡ verdict_counted why counters }
{
    match why {
        Refusal::NoAo => counters.no_ao = next_count(counters.no_ao),
        Refusal::TwoAo => counters.two_ao = next_count(counters.two_ao),
        Refusal::WithMd5 => counters.with_md5 = next_count(counters.with_md5),
        Refusal::NoTuple => counters.no_tuple = next_count(counters.no_tuple),
        Refusal::Expired => counters.expired = next_count(counters.expired),
        Refusal::MacLength => counters.mac_length = next_count(counters.mac_length),
        Refusal::NoContext => counters.no_context = next_count(counters.no_context),
        Refusal::Range => counters.range = next_count(counters.range),
        Refusal::BadMac => counters.bad_mac = next_count(counters.bad_mac),
    }
    counters
}

/// One more datagram of the own kernel wasn't sealed, for this reason.
fn unsent_counted(why: PairUnsent, mut counters: LeavingCounters) -> LeavingCounters
    ensures { result ≡ unsent_counted why counters }
{
    match why {
        PairUnsent::NoNode => counters.no_node = next_count(counters.no_node),
        PairUnsent::Unsent(Unsent::Bad(fault)) => counters.bad = fault_counted(fault, counters.bad),
        PairUnsent::Unsent(Unsent::Foreign) => counters.foreign = next_count(counters.foreign),
        PairUnsent::Unsent(Unsent::Unkeyed) => counters.unkeyed = next_count(counters.unkeyed),
        PairUnsent::Unsent(Unsent::Signed) => counters.signed = next_count(counters.signed),
        PairUnsent::Unsent(Unsent::NoContext) => counters.no_context = next_count(
            counters.no_context,
        ),
        PairUnsent::Unsent(Unsent::Range) => counters.range = next_count(counters.range),
        PairUnsent::Unsent(Unsent::NoKey) => counters.no_key = next_count(counters.no_key),
        PairUnsent::Unsent(Unsent::NoRoom) => counters.no_room = next_count(counters.no_room),
        PairUnsent::Unsent(Unsent::TooLong) => counters.too_long = next_count(counters.too_long),
    }
    counters
}

/// One more datagram from the network wasn't opened, for this reason.
fn untaken_counted(why: PairUntaken, mut counters: ArrivingCounters) -> ArrivingCounters
    ensures { result ≡ untaken_counted why counters }
{
    match why {
        PairUntaken::NoNode => counters.no_node = next_count(counters.no_node),
        PairUntaken::Untaken(Untaken::Bad(fault)) => counters.bad = fault_counted(
            fault,
            counters.bad,
        ),
        PairUntaken::Untaken(Untaken::Foreign) => counters.foreign = next_count(counters.foreign),
        PairUntaken::Untaken(Untaken::Unkeyed) => counters.unkeyed = next_count(counters.unkeyed),
        PairUntaken::Untaken(Untaken::Checksum) => counters.checksum = next_count(
            counters.checksum,
        ),
        PairUntaken::Untaken(Untaken::Refused(verdict)) => counters.refused = verdict_counted(
            verdict,
            counters.refused,
        ),
    }
    counters
}

/// One more datagram of the own kernel was answered so.
pub(crate) fn leaving_counted(answer: Result<Passed, PairUnsent>, counters: Counters) -> Counters
    ensures { result ≡ leaving_counted answer counters }
{
    let leaving = match answer {
        Err(why) => unsent_counted(why, counters.leaving),
        Ok(_) => LeavingCounters {
            sealed: next_count(counters.leaving.sealed),
            ..counters.leaving
        },
    };
    Counters {
        leaving,
        ..counters
    }
}

/// One more datagram from the network was answered so.
pub(crate) fn arriving_counted(answer: Result<Passed, PairUntaken>, counters: Counters) -> Counters
    ensures { result ≡ arriving_counted answer counters }
{
    let arriving = match answer {
        Err(why) => untaken_counted(why, counters.arriving),
        Ok(_) => ArrivingCounters {
            opened: next_count(counters.arriving.opened),
            ..counters.arriving
        },
    };
    Counters {
        arriving,
        ..counters
    }
}

/// One more datagram came as ICMP; it is counted where it is kept from the own kernel.
pub(crate) fn ignored_counted(ignored: bool, counters: Counters) -> Counters
    ensures { result ≡ ignored_counted ignored counters }
{
    if ignored {
        let arriving = ArrivingCounters {
            icmp: next_count(counters.arriving.icmp),
            ..counters.arriving
        };
        Counters {
            arriving,
            ..counters
        }
    } else {
        counters
    }
}
