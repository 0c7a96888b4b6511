//! The script of a link file.

use book_base::{Algorithm, Bytes, Socket};
use book_link::Events;

/// Where the keys of a link's ends come from.
#[derive(Clone, Copy, Debug, PartialEq, Eq)]
pub enum KeysFrom {
    /// A key file beside the link file, which then has no `shared` line.
    KeyFile,
    /// The `shared` line of the link file.
    LinkFile,
}

/// The key that both ends of a link share where there is no key file.
#[derive(Drop)]
pub struct SharedKey {
    pub alg: Algorithm,
    /// The master key, 1 to 255 bytes.
    pub master: Bytes,
}

/// What a link file says: the sockets of its two ends, whose addresses differ and are of one family,
/// the key that they share, where the file names it, and the events in order.
#[derive(Drop)]
pub struct Script {
    pub a: Socket,
    pub b: Socket,
    pub shared: Option<SharedKey>,
    pub events: Events,
}
