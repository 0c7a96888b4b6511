//! A turn as it is told.
use book_base::{Bytes, End};

/// A turn of the calendar of a connection: its time, in seconds since 1970, its end, and what is said of
/// it behind the name of the end's node.
#[derive(Debug, Drop)]
pub struct Told {
    pub time: u64,
    pub end: End,
    pub text: Bytes,
}
