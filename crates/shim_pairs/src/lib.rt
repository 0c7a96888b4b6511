//! TCP-AO for the connections of a kernel's TCP that has none (RFC 5925): many pairs of sockets, each
//! with its guard, found by the sockets of a datagram. Where as many pairs are held as there may be, the
//! one of which nothing passed for longest goes as another one comes about. But for `Shim::new` and
//! `Shim::rekey` nothing takes memory.
#![tactic(auto)]

mod answer;
mod changes;
mod copy;
mod counters;
mod eldest;
mod entry;
mod headers;
mod ignore;
mod inbound;
mod laws;
mod notices;
mod outbound;
mod pairs;
mod put;
mod quotes;
mod rekey;
mod room;
mod saved;
mod shim;

pub use answer::{PairUnsent, PairUntaken, Passed};
pub use counters::{ArrivingCounters, Counters, FaultCounters, LeavingCounters, VerdictCounters};
pub use laws::pairs_do_not_touch;
pub use notices::read_notice;
pub use saved::{RestoreRefusal, Saved};
pub use shim::Shim;
