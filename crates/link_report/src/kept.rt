//! An entry among the others.

use crate::entry::Entry;

/// An entry, and the place of the last one before it with its number.
#[derive(Drop)]
pub(crate) struct Kept {
    pub(crate) entry: Entry,
    pub(crate) earlier: Option<u32>,
}
