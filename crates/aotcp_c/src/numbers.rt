//! The numbers by which a C program is told of answers.
ghost use Rattle.std.specs.Prelude.{◌≡◌};
ghost use Rattle.aotcp_c.specs.Numbers.{phase_number, column_number, datagram_number, verdict_number};
ghost use Rattle.aotcp_c.specs.Numbers.{arrival_number, reason_number};

use book_endpoint::{Arrival, Phase, Refusal};
use book_keys::Column;
use book_segments::DatagramFault;

/// The phases in their order.
pub(crate) fn phase_number(phase: Phase) -> u8
    ensures { result ≡ phase_number phase }
{
    match phase {
        Phase::Listen => 0,
        Phase::SynSent => 1,
        Phase::SynReceived => 2,
        Phase::Established => 3,
        Phase::FinWait1 => 4,
        Phase::FinWait2 => 5,
        Phase::CloseWait => 6,
        Phase::Closing => 7,
        Phase::LastAck => 8,
        Phase::TimeWait => 9,
        Phase::Closed => 10,
    }
}

/// The columns in their order.
pub(crate) fn column_number(column: Column) -> u8
    ensures { result ≡ column_number column }
{
    match column {
        Column::Other => 0,
        Column::Name => 1,
        Column::Address => 2,
        Column::Rows => 3,
        Column::AdminKeyName => 4,
        Column::LocalKeyName => 5,
        Column::PeerKeyName => 6,
        Column::Peers => 7,
        Column::Interfaces => 8,
        Column::Protocol => 9,
        Column::ProtocolSpecificInfo => 10,
        Column::Kdf => 11,
        Column::AlgId => 12,
        Column::Key => 13,
        Column::Direction => 14,
        Column::SendLifetimeStart => 15,
        Column::SendLifetimeEnd => 16,
        Column::AcceptLifetimeStart => 17,
        Column::AcceptLifetimeEnd => 18,
        Column::LocalPort => 19,
        Column::PeerPort => 20,
    }
}

/// Why bytes are no datagram, from 1.
pub(crate) fn datagram_number(fault: DatagramFault) -> u8
    ensures { result ≡ datagram_number fault }
{
    match fault {
        DatagramFault::Truncated => 1,
        DatagramFault::Version => 2,
        DatagramFault::HeaderLength => 3,
        DatagramFault::HeaderChecksum => 4,
        DatagramFault::Fragment => 5,
        DatagramFault::NotTcp => 6,
        DatagramFault::ExtensionHeader => 7,
        DatagramFault::DataOffset => 8,
        DatagramFault::BadOption(_) => 9,
    }
}

/// What the check found.
pub(crate) fn verdict_number(verdict: Refusal) -> u8
    ensures { result ≡ verdict_number verdict }
{
    match verdict {
        Refusal::NoAo => 1,
        Refusal::TwoAo => 2,
        Refusal::WithMd5 => 3,
        Refusal::NoTuple => 4,
        Refusal::Expired => 5,
        Refusal::MacLength => 6,
        Refusal::NoContext => 7,
        Refusal::Range => 8,
        Refusal::BadMac => 9,
    }
}

/// The answers to an arrival.
pub(crate) fn arrival_number(arrival: Arrival) -> u8
    ensures { result ≡ arrival_number arrival }
{
    match arrival {
        Arrival::Bad(_) => 0,
        Arrival::Foreign => 1,
        Arrival::Checksum => 2,
        Arrival::Closed => 3,
        Arrival::Refused(_) => 4,
        Arrival::Unexpected => 5,
        Arrival::Window => 6,
        Arrival::Challenge => 7,
        Arrival::NoAck => 8,
        Arrival::BadAck => 9,
        Arrival::TooManyRuns => 10,
        Arrival::Reset => 11,
        Arrival::Taken => 12,
    }
}

/// The reason of a bad or a refused one, else 0.
pub(crate) fn reason_number(arrival: Arrival) -> u8
    ensures { result ≡ reason_number arrival }
{
    match arrival {
        Arrival::Bad(fault) => datagram_number(fault),
        Arrival::Refused(verdict) => verdict_number(verdict),
        Arrival::Foreign => 0,
        Arrival::Checksum => 0,
        Arrival::Closed => 0,
        Arrival::Unexpected => 0,
        Arrival::Window => 0,
        Arrival::Challenge => 0,
        Arrival::NoAck => 0,
        Arrival::BadAck => 0,
        Arrival::TooManyRuns => 0,
        Arrival::Reset => 0,
        Arrival::Taken => 0,
    }
}
