//! The time that is drawn of a session, and what is left out.

/// Between which seconds since 1970 segments were seen that are drawn, both with them.
#[derive(Clone, Copy, Debug, PartialEq, Eq)]
pub struct DrawnTime {
    /// The first second that is drawn; all where it is 0.
    pub from: u64,
    /// The last one; all where it is 2^64 - 1.
    pub to: u64,
}

/// How many segments are left out; each count stops at 2^64 - 1.
#[derive(Clone, Copy, Debug, PartialEq, Eq)]
pub struct LeftOut {
    /// Those that were seen before the first second that is drawn.
    pub before: u64,
    /// Those that were seen after the last one.
    pub after: u64,
}

/// On which side of the time that is drawn segments were seen.
#[derive(Clone, Copy, Debug, PartialEq, Eq)]
pub enum LeftSide {
    Before,
    After,
}

/// The segments that are left out on one side.
#[derive(Clone, Copy, Debug, PartialEq, Eq)]
pub struct LeftRun {
    pub side: LeftSide,
    /// How many they are; it stops at 2^64 - 1.
    pub count: u64,
    /// The second before or after which they were seen, since 1970.
    pub time: u64,
}
