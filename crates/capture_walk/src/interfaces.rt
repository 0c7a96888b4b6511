//! The interfaces of a section.
ghost use Rattle.std.specs.Prelude.{◌≡◌, ◌<◌, List, [], ◌∷◌, ◌++◌, length, IfOk};

use book_captures::{Interface, TimeOffset, TimeResolution};
use capture_reader::MOST_INTERFACES;
use std::alloc::{AllocError, Global};
use std::marker::Model;

/// Fills the room of interfaces that aren't described yet.
const NO_INTERFACE: Interface = Interface {
    link: 0,
    snapshot: 0,
    resolution: TimeResolution::Decimal(6),
    offset: TimeOffset::Later(0),
};

/// The interfaces of a section, at most 4,096, in room that is taken once.
#[derive(Debug, Drop)]
pub(crate) struct Interfaces {
    room: Vec<Interface>,
    len: usize,
}

impl Model for Interfaces {
    ghost use Rattle.std.specs.Prelude.{◌≡◌, ◌≤◌, List, take, length};
    ghost use Rattle.book_captures.specs.declared.block_parts.Interface.{Interface};

    ghost Value = { List Interface };

    ghost view = { λ i. take i.len i.room.items };

    ghost invariant = { λ i. (i.len ≤ length i.room.items) × (length i.room.items ≡ 4096) };
}

impl Interfaces {
    /// Those of a section that describes none yet.
    pub(crate) fn new(alloc: Global) -> Result<Interfaces, AllocError>
        ensures { IfOk result (λ i. i ≡ []) }
    {
        let room = vec![in alloc; NO_INTERFACE; MOST_INTERFACES]?;
        Ok(Interfaces { room, len: 0 })
    }

    /// All of them.
    pub(crate) fn as_slice(&self) -> &[Interface]
        ensures { result.now ≡ self.now }
    {
        &self.room.as_slice()[..self.len]
    }

    /// Another section begins.
    pub(crate) fn clear(&mut self)
        ensures { self.new ≡ [] }
    {
        self.len = 0;
    }

    /// The section describes one more.
    pub(crate) fn push(&mut self, interface: Interface)
        requires { length self.old < 4096 }
        ensures { self.new ≡ self.old ++ interface ∷ [] }
    {
        self.room[self.len] = interface;
        self.len += 1;
    }
}
