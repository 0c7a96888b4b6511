//! TCP-AO for a kernel's TCP that has none (RFC 5925): the two ways of the datagrams of one pair of
//! sockets. `Guard::outbound` seals what the own kernel sends, and `Guard::inbound` checks what comes
//! from the peer and takes the option off. Each writes what goes on into a buffer of the caller's, or
//! says why nothing does. After `Guard::new` nothing takes memory.
#![tactic(auto)]

mod area;
mod arrival;
mod arriving;
mod facts;
mod guard;
mod inbound;
mod kept_arriving;
mod kept_leaving;
mod layout;
mod leaving;
mod numbers;
mod outbound;
mod parts;
mod plan;
mod rewrite;
mod rows;
mod seal;
mod starts;
mod sums;

pub use book_shim::{Isns, Kept, Unsent, Untaken};
pub use guard::Guard;
pub use rows::{followed, is_keyed};
