//! What a log keeps of a segment.
use book_base::{Algorithm, Bytes, End};
use book_macs::Context;

/// A segment that was made.
#[derive(Drop)]
pub struct Entry {
    /// The end that made it.
    pub maker: End,
    /// Its number in the stream, of which its sequence field is the lower 32 bits.
    pub number: u64,
    /// Algorithm, master key and option flag of the row that it was signed by.
    pub algorithm: Algorithm,
    pub master: Bytes,
    pub with_options: bool,
    /// The context of its traffic key.
    pub context: Context,
    /// Its datagram.
    pub bytes: Bytes,
}
