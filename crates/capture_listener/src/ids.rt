//! The key ids of a datagram.
ghost use Rattle.std.specs.Prelude.{◌≡◌};
ghost use Rattle.book_segments.specs.Options.{find_ao};
ghost use Rattle.book_sessions.specs.Sessions.{ids_found};

use book_sessions::KeyIds;
use tcp_segment::{AoFound, Datagram};

/// The ids of the one TCP-AO option of a datagram; none where it hasn't one, or not it alone.
pub fn key_ids(datagram: &Datagram<'_>) -> Option<KeyIds>
    ensures { result ≡ ids_found (find_ao datagram.now.area) }
{
    match datagram.options().find_ao() {
        AoFound::Absent => None,
        AoFound::One(ao) => Some(KeyIds {
            key_id: ao.key_id,
            rnext_key_id: ao.rnext,
        }),
        AoFound::Two => None,
        AoFound::WithMd5 => None,
    }
}
