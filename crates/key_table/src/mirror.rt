//! A connection as its other end sees it.
ghost use Rattle.std.specs.Prelude.{◌≡◌};
ghost use Rattle.book_keys.specs.Plans.{mirrored};

use book_base::Pair;

/// The pair of sockets as the other end sees it.
pub fn mirrored(pair: &Pair) -> Pair
    ensures { result ≡ mirrored pair.now }
{
    Pair {
        local: pair.remote,
        remote: pair.local,
    }
}
