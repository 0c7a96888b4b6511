//! What the packet has that a reader shows.
ghost use Rattle.std.specs.Prelude.{◌≡◌, ◌≤◌, ℕ, IfOk, IsSome, Some, length};
ghost use Rattle.book_captures.specs.Captures.{CapturePacket};
ghost use Rattle.book_sessions.specs.Sessions.{captured_by, captured_of_packet};
ghost use Rattle.scope_lines.specs.Writes.{found_in};
ghost use Rattle.packet_check.specs.Checking.{stored_as};

use book_sessions::PassedOver;
use capture_reader::FoundDatagram;
use capture_walk::{CaptureReader, Skipped};
use scope_lines::judged;

/// How many nanoseconds a second has.
const NANOSECONDS: u64 = 1_000_000_000;

/// The bytes that were stored at a time, in seconds since 1970.
#[derive(Clone, Copy)]
pub(crate) struct StoredBytes<'a> {
    pub(crate) time: u64,
    pub(crate) bytes: &'a [u8],
}

// What a packet has whose frame has this datagram, or none for this reason.
fn stored_found(
    time: Option<u64>,
    frame: &[u8],
    found: Result<FoundDatagram, Skipped>,
) -> Result<StoredBytes<'_>, PassedOver>
    requires { IfOk found (λ d. (d.first ≤ d.after) × (d.after ≤ length frame.now)) }
    ensures { (number : ℕ) → stored_as number result ≡ captured_by number time (found_in frame.now found) }
{
    match found {
        Err(why) => Err(PassedOver::NoDatagram(why)),
        Ok(datagram) => match time {
            None => Err(PassedOver::NoTime),
            Some(time) => Ok(StoredBytes {
                time: time / NANOSECONDS,
                bytes: judged(frame, datagram.first),
            }),
        },
    }
}

/// What the packet has that the reader shows, or why it is passed over.
pub(crate) fn stored_shown(reader: &CaptureReader) -> Result<StoredBytes<'_>, PassedOver>
    requires { IsSome reader.now.packet }
    ensures { (p : CapturePacket) → reader.now.packet ≡ Some p → stored_as p.number result ≡ captured_of_packet p }
{
    stored_found(reader.time(), reader.frame(), reader.datagram())
}
