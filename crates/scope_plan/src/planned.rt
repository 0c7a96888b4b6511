//! What the planning of connections comes to.

use book_base::Bytes;

/// What is said of the planned rollover of each connection, without what stands around it, how many lines of a
/// picture that is, how many connections there are, with how many of them nothing is wrong, and whether something
/// is wrong with one, or one changes no key.
#[derive(Drop)]
pub(crate) struct Planned {
    pub(crate) text: Bytes,
    pub(crate) lines: u32,
    pub(crate) all: u32,
    pub(crate) good: u32,
    pub(crate) has_wrong: bool,
}

/// What was said of a connection: the number of the line of a picture after it, and whether nothing is wrong
/// with its plan.
#[derive(Clone, Copy)]
pub(crate) struct Written {
    pub(crate) next: u32,
    pub(crate) is_good: bool,
}
