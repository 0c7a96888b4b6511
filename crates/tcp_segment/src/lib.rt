//! Datagrams of IP and TCP in place (RFC 791, RFC 8200, RFC 9293).
//!
//! `read_datagram` borrows the parts of a datagram from the caller's bytes, or names the first of
//! nine faults. `write_datagram` lays a datagram out in a caller's buffer, whose payload and MAC are
//! then filled in, and `finish` sets its checksum. No call takes memory or copies a datagram.
#![tactic(auto)]

mod ao;
mod counter;
mod datagram;
mod draft;
mod faults;
mod flags;
mod headers;
mod iter;
mod kinds;
mod laws;
mod options;
mod parts;
mod ring;
mod spelling;
mod sums;

pub use ao::{AoFound, AoOption};
pub use book_segments::DatagramFault;
pub use counter::Counter;
pub use datagram::{Datagram, read_datagram};
pub use draft::{DatagramMut, Draft};
pub use flags::Flag;
pub use headers::TCP_PROTOCOL;
pub use iter::{Opt, OptionIter};
pub use kinds::{AO_HEAD, AO_KIND, MSS_KIND};
pub use laws::parts_put_in_are_kept;
pub use options::{Options, read_options};
pub use ring::{ahead, extend, in_window, next_from};
pub use spelling::{Head, write_datagram};
pub use sums::{complement, fix_checksum, set_checksum, words};
