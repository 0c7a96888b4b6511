//! The events of a link.
ghost use Rattle.std.specs.Prelude.{◌≡◌};

use book_base::{Bytes, End};
use book_keys::NewRow;
use std::marker::Model;

/// Whether an end makes a segment for the first time or again.
#[derive(Clone, Copy, Debug, PartialEq, Eq)]
pub enum Transmission {
    /// What is next to be sent.
    New,
    /// The oldest of what isn't acknowledged, or a probe.
    Again,
}

/// What becomes of the TCP checksum of a copy in which a byte is altered.
#[derive(Clone, Copy, Debug, PartialEq, Eq)]
pub enum Fixing {
    /// It stays as it was made.
    Keep,
    /// It is set for the copy.
    Fix,
}

/// What happens at a link. Segments are numbered from 1 in the order in which they are made.
#[derive(Drop)]
pub enum Event {
    /// An action at an end.
    At(End, Action),
    /// The segment of this number is shown.
    Dump(u32),
}

/// What happens at an end of a link.
#[derive(Drop)]
pub enum Action {
    /// The clock of the end reads so many seconds since 1970-01-01, at most 253402300799.
    Clock(u64),
    /// A new session of the end opens actively, with this initial sequence number.
    Connect(u32),
    /// A new session of the end waits for its peer, with this initial sequence number.
    Listen(u32),
    /// A new session of the end is established, with its own initial sequence number and its peer's.
    Start(u32, u32),
    /// The end's user gives it bytes to send, at least one.
    Give(Bytes),
    /// The end's user gives it so many times the byte.
    Fill(u16, u8),
    /// The end makes a segment, if it has one to send.
    Send,
    /// The end makes a segment again that isn't acknowledged, or a probe.
    Resend,
    /// The segment of this number, from 1 to 20000, arrives at the end.
    Deliver(u32),
    /// A datagram of 1 to 65575 bytes arrives at the end.
    Inject(Bytes),
    /// A copy of the segment of this number arrives at the end, with the byte at the place, counted
    /// from its TCP header, xored with the mask, and with its TCP checksum kept or set.
    Alter(u32, u16, u8, Fixing),
    /// The end's user takes at most so many bytes.
    Take(u16),
    /// The end's user has no more bytes to give.
    Close,
    /// The end's user gives the connection up.
    Abort,
    /// A row is added behind the last one of the end's table.
    AddRow(NewRow),
    /// The row of this number, from 1 to 64, of the end's table becomes Disabled.
    Withdraw(u8),
}

/// A list of events.
#[derive(Drop)]
pub struct Events {
    items: Vec<Event>,
}

impl Model for Events {
    ghost use Rattle.std.specs.Prelude.{List};
    ghost use Rattle.book_link.specs.declared.event.Event.{Event as One};

    ghost Value = { List One };

    ghost view = { λ e. e.items.items };
}

impl Events {
    /// The events of the vector, in its order.
    pub fn from_vec(items: Vec<Event>) -> Self
        ensures { result ≡ items.items }
    {
        Events { items }
    }

    /// The events in order.
    pub fn as_slice(&self) -> &[Event]
        ensures { result.now ≡ self.now }
    {
        self.items.as_slice()
    }

    /// The vector of the events, in their order.
    pub fn into_vec(self) -> Vec<Event>
        ensures { result.items ≡ self }
    {
        let Events { items } = self;
        items
    }
}
