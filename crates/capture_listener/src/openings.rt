//! The SYNs without ACK that were seen, by the way that they go.
ghost use Rattle.std.specs.Prelude.{◌≡◌, [], None, OnErr, OnOk, Some};
ghost use Rattle.capture_listener.specs.Openings.{kept_opening, KeepsOpenings, PutsOpening, way_between};

use book_base::{Pair, Socket};
use std::alloc::{AllocError, Global};
use std::collections::BTreeMap;

/// The initial sequence number of a SYN without ACK, and whether it was verified.
#[derive(Clone, Copy, Debug, PartialEq, Eq)]
pub(crate) struct KeptOpening {
    pub(crate) isn: u32,
    pub(crate) passes: bool,
}

fn way_between(source: Socket, destination: Socket) -> Pair
    ensures { result ≡ way_between source destination }
{
    Pair {
        local: source,
        remote: destination,
    }
}

/// The last SYN without ACK that goes each way.
#[derive(Drop)]
pub(crate) struct Openings {
    isns: BTreeMap<Pair, KeptOpening>,
}

impl Openings {
    /// No opening is kept.
    pub(crate) fn new(alloc: Global) -> Openings
        ensures { KeepsOpenings result.isns.entries [] }
    {
        Openings {
            isns: BTreeMap::new(alloc),
        }
    }

    /// The opening that goes this way, if one is kept.
    pub(crate) fn get(&self, source: Socket, destination: Socket) -> Option<KeptOpening>
        ensures { result ≡ kept_opening self.now.isns.entries (way_between source destination) }
    {
        self.isns.get(&way_between(source, destination)).copied()
    }

    /// Keeps an opening in the place of the one that goes the same way. After want of memory all is as it
    /// was.
    pub(crate) fn put(
        &mut self,
        source: Socket,
        destination: Socket,
        opening: KeptOpening,
    ) -> Result<(), AllocError>
        ensures put { OnOk result (PutsOpening self.old.isns.entries self.new.isns.entries
            (way_between source destination) (Some opening)) }
        ensures unchanged { OnErr result (self.new.isns.entries ≡ self.old.isns.entries) }
    {
        self.isns.insert(way_between(source, destination), opening)?;
        Ok(())
    }

    /// Keeps no opening that goes this way.
    pub(crate) fn drop_way(&mut self, source: Socket, destination: Socket)
        ensures { PutsOpening self.old.isns.entries self.new.isns.entries (way_between source destination) None }
    {
        let _kept = self.isns.remove(&way_between(source, destination));
    }
}
