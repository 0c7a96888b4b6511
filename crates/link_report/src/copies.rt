//! An outcome once more.
ghost use Rattle.std.specs.Prelude.{◌≡◌, ◌≤◌, length};
ghost use Rattle.link_report.specs.Outcomes.{content_of};

use crate::outcome::Outcome;
use book_base::Bytes;

/// A copy of the bytes, in room that is long enough.
fn filled(mut room: Vec<u8>, bytes: &[u8]) -> Bytes
    requires { length bytes.now ≤ length room.items }
    ensures { result ≡ bytes.now }
{
    room.truncate(bytes.len());
    room.as_mut_slice().copy_from_slice(bytes);
    Bytes::from_vec(room)
}

impl Outcome {
    /// The same outcome again. The bytes that it carries, if any, go into this room, which is as long as
    /// they are at least, so that no memory is taken.
    pub fn copied(&self, room: Vec<u8>) -> Outcome
        requires room { length (content_of self.now) ≤ length room.items }
        ensures { result ≡ self.now }
    {
        match self {
            Outcome::Done => Outcome::Done,
            Outcome::IsnUsed => Outcome::IsnUsed,
            Outcome::NoSession => Outcome::NoSession,
            Outcome::NoSegment => Outcome::NoSegment,
            Outcome::NoPlace => Outcome::NoPlace,
            Outcome::Full => Outcome::Full,
            Outcome::Closed => Outcome::Closed,
            Outcome::Sent(name, made) => Outcome::Sent(*name, *made),
            Outcome::NoKey => Outcome::NoKey,
            Outcome::Idle => Outcome::Idle,
            Outcome::Nothing => Outcome::Nothing,
            Outcome::Arrival(arrival) => Outcome::Arrival(*arrival),
            Outcome::Took(bytes, end_shown) => Outcome::Took(
                filled(room, bytes.as_slice()),
                *end_shown,
            ),
            Outcome::Image(bytes) => Outcome::Image(filled(room, bytes.as_slice())),
            Outcome::Added(row) => Outcome::Added(*row),
            Outcome::TooManyRows => Outcome::TooManyRows,
            Outcome::Overlap(row) => Outcome::Overlap(*row),
            Outcome::NoRow => Outcome::NoRow,
        }
    }
}
