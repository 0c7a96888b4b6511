//! Runs of segments that say the same, and the lines that are drawn of a session.
use crate::session_rung::SessionRung;
use crate::span::LeftRun;

/// The last two segments of a direction that were drawn; none before the one that was drawn last, where it
/// names other keys, or something else is said of it.
#[derive(Clone, Copy, Debug, PartialEq, Eq)]
pub struct RungKinds {
    pub last: Option<SessionRung>,
    pub before: Option<SessionRung>,
}

/// A run of segments that say the same as those above.
#[derive(Clone, Copy, Debug, PartialEq, Eq)]
pub struct RungRun {
    /// How many they are; it stops at 2^64 - 1.
    pub count: u64,
    pub first: SessionRung,
    pub last: SessionRung,
    /// All are under one key, and the same is said of all.
    pub even: bool,
}

/// What is known of the segments above: those that were drawn last, to the left end and to the right one, and
/// the run that isn't told yet.
#[derive(Clone, Copy, Debug, PartialEq, Eq)]
pub struct Folding {
    pub to_left: RungKinds,
    pub to_right: RungKinds,
    pub run: Option<RungRun>,
}

/// A line of a session.
#[derive(Clone, Copy, Debug, PartialEq, Eq)]
pub enum SessionLine {
    /// It tells a segment.
    Whole(SessionRung),
    /// It tells how many segments say the same as those above.
    More(RungRun),
    /// It tells how many segments are left out.
    Left(LeftRun),
}
