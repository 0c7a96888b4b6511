//! The key ids of a datagram.
ghost use Rattle.std.specs.Prelude.{◌≡◌, take};
ghost use Rattle.book_stack.specs.KeyIds.{key_ids_heard, key_ids_read, key_ids_sent, option_key_ids};
ghost use Rattle.book_segments.specs.Options.{find_ao};
ghost use Rattle.book_segments.specs.Segments.{reading};
ghost use Rattle.ao_stack.specs.CountersPassed.{ids_passed};

use book_endpoint::Arrival;
use book_stack::{KeyIds, KeyIdsSeen};
use stack_timers::is_heard;
use tcp_endpoint::Passing;
use tcp_segment::{AoFound, Datagram, read_datagram};

/// The ids of the one TCP-AO option of a datagram.
fn ids_of(datagram: &Datagram<'_>) -> Option<KeyIds>
    ensures { result ≡ option_key_ids (find_ao datagram.now.area) }
{
    match datagram.options().find_ao() {
        AoFound::Absent => None,
        AoFound::One(ao) => Some(KeyIds {
            key_id: ao.key_id,
            rnext_key_id: ao.rnext,
        }),
        AoFound::Two => None,
        AoFound::WithMd5 => None,
    }
}

/// The ids of a segment that passed the check, and none of what didn't pass.
pub(crate) fn ids_passed(passed: Option<Passing<'_>>) -> Option<KeyIds>
    ensures { result ≡ ids_passed passed.entry }
{
    match passed {
        None => None,
        Some(one) => Some(KeyIds {
            key_id: one.option.key_id,
            rnext_key_id: one.option.rnext,
        }),
    }
}

/// The ids of the datagram of this length in front of the room; of all of the room, were it longer.
pub(crate) fn ids_in_front(room: &[u8], length: usize) -> Option<KeyIds>
    ensures { result ≡ key_ids_read (reading (take length room.now)) }
{
    let end = length.min(room.len());
    match read_datagram(&room[..end]) {
        Err(_) => None,
        Ok(datagram) => ids_of(&datagram),
    }
}

/// The ids that were seen once a segment was sent.
pub(crate) fn sent(seen: KeyIdsSeen, ids: Option<KeyIds>) -> KeyIdsSeen
    ensures { result ≡ key_ids_sent ids seen }
{
    KeyIdsSeen { sent: ids, ..seen }
}

/// The ids that were seen once a segment came that moved its connection on, or didn't, and was answered
/// so.
pub(crate) fn heard(
    seen: KeyIdsSeen,
    moved: bool,
    arrival: Arrival,
    ids: Option<KeyIds>,
) -> KeyIdsSeen
    ensures { result ≡ key_ids_heard moved arrival ids seen }
{
    if is_heard(arrival) && moved {
        KeyIdsSeen { heard: ids, ..seen }
    } else {
        seen
    }
}
