//! An end of a link with all its sessions.
ghost use Rattle.std.specs.Prelude.{◌≡◌, ◌≤◌, true, [], Some, None, IfSome, is_some};
ghost use Rattle.std.specs.Option.{ForSome};
ghost use Rattle.book_keys.specs.Lifetimes.{greatest_time};
ghost use Rattle.book_link.specs.Worlds.{LinkSide as EndSide, find};
ghost use Rattle.tcp_endpoint.specs.Ends.{FitsEnd, pair_at_end};
ghost use Rattle.book_base.specs.Addresses.{IsOneFamily};

use crate::sessions::{Ended, Live, has_isn};
use book_base::Pair;
use key_table::Table;
use std::alloc::Global;

/// An end: its sockets, its clock in seconds since 1970, its table as it is now, its live session,
/// and those before it, the oldest first.
#[derive(Drop)]
pub struct Side {
    pub(crate) pair: Pair,
    pub(crate) clock: u64,
    pub(crate) table: Table,
    pub(crate) live: Option<Live>,
    pub(crate) dropped: Vec<Ended>,
    ghost family: { IsOneFamily pair.local.address pair.remote.address },
    ghost time: { clock ≤ greatest_time },
    ghost bound: { ForSome live (λ l. pair_at_end l.endpoint ≡ pair) },
    ghost fits: { ForSome live (λ l. FitsEnd table.rows l.endpoint) },
}

impl Side {
    ghost use Rattle.link_report.specs.Sides.{StandsSide, dropped_of, live_of, sockets_of};

    /// An end without a session, its clock at 0. The two addresses are of one family.
    pub fn new(alloc: Global, pair: Pair, table: Table) -> Side
        requires family { IsOneFamily pair.local.address pair.remote.address }
        ensures stands { StandsSide result (record { clock = 0; rows = table.rows; sessions = [] }) }
        ensures pair { sockets_of result ≡ pair }
    {
        Side {
            pair,
            clock: 0,
            table,
            live: None,
            dropped: Vec::new(alloc),
        }
    }

    /// The clock, in seconds since 1970, at most LATEST.
    pub fn clock(&self) -> u64
        ensures reads { (m : EndSide) → StandsSide self.now m → result ≡ m.clock }
        ensures latest { result ≤ greatest_time }
    {
        self.clock
    }

    /// The live session, if there is one.
    pub fn live(&self) -> Option<&Live>
        ensures some { IfSome result (λ l. live_of self.now ≡ Some l.now) }
        ensures none { result ≡ None → live_of self.now ≡ None }
    {
        match &self.live {
            Some(live) => Some(live),
            None => None,
        }
    }

    /// The sessions before the live one, the oldest first.
    pub fn dropped(&self) -> &[Ended]
        ensures { result.now ≡ dropped_of self.now }
    {
        self.dropped.as_slice()
    }

    /// Whether a session of the end has this initial sequence number.
    pub(crate) fn has_used(&self, isn: u32) -> bool
        ensures { (m : EndSide) → StandsSide self.now m → result ≡ is_some (find m.sessions isn) }
    {
        match &self.live {
            None => false,
            Some(live) => { live.endpoint.isn() == isn || has_isn(self.dropped.as_slice(), isn) }
        }
    }
}
