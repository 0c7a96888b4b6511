//! A value for each end.
ghost use Rattle.std.specs.Prelude.{◌≡◌};
ghost use Rattle.std.specs.Borrow.{sem};
ghost use Rattle.both_ends.specs.Lends.{LendsAt};
ghost use Rattle.both_ends.specs.Values.{at, with_at};

use book_base::End;

/// A value for each of the two ends of a link.
#[derive(Clone, Copy, Debug, Drop, PartialEq, Eq)]
pub struct BothEnds<T> {
    /// The value of the end a.
    pub a: T,
    /// The value of the end b.
    pub b: T,
}

impl<T> BothEnds<T> {
    /// The value of an end.
    pub fn at(&self, end: End) -> &T
        ensures { result.now ≡ at end self.now }
    {
        match end {
            End::A => &self.a,
            End::B => &self.b,
        }
    }

    /// The value of an end, for writing.
    pub fn at_mut(&mut self, end: End) -> &mut T
        ensures* writes_back { sem 𝓛 (LendsAt T.row self.entry end result) }
        ensures value { result.now ≡ at end self.old }
    {
        match end {
            End::A => &mut self.a,
            End::B => &mut self.b,
        }
    }
}
