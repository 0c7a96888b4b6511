//! The two ends of a link.
ghost use Rattle.std.specs.Prelude.{◌≡◌};
ghost use Rattle.book_link.specs.Worlds.{other, same_end};

use book_base::End;

/// The other of the two ends.
pub fn other(end: End) -> End
    ensures { result ≡ other end }
{
    match end {
        End::A => End::B,
        End::B => End::A,
    }
}

/// Whether two names are of the same end.
pub fn is_same_end(one: End, other: End) -> bool
    ensures { result ≡ same_end one other }
{
    matches!((one, other), (End::A, End::A) | (End::B, End::B))
}
