//! The script of a link with retransmission timers.
ghost use Rattle.std.specs.Prelude.{◌≡◌};

use book_base::{End, Socket};
use book_link::Event;
use std::marker::Model;

/// What happens at a link whose ends have retransmission timers.
#[derive(Drop)]
pub enum TimedEvent {
    /// A plain event.
    Plain(Event),
    /// So many seconds, from 1 to 3600, pass at the end, in which its timer may expire.
    Wait(End, u16),
}

/// A list of such events.
#[derive(Drop)]
pub struct TimedEvents {
    items: Vec<TimedEvent>,
}

impl Model for TimedEvents {
    ghost use Rattle.std.specs.Prelude.{List};
    ghost use Rattle.book_cmd_link.specs.declared.timed.TimedEvent.{TimedEvent as One};

    ghost Value = { List One };

    ghost view = { λ e. e.items.items };
}

impl TimedEvents {
    /// The events of the vector, in its order.
    pub fn from_vec(items: Vec<TimedEvent>) -> Self
        ensures { result ≡ items.items }
    {
        TimedEvents { items }
    }

    /// The events in order.
    pub fn as_slice(&self) -> &[TimedEvent]
        ensures { result.now ≡ self.now }
    {
        self.items.as_slice()
    }

    /// The vector of the events, in their order.
    pub fn into_vec(self) -> Vec<TimedEvent>
        ensures { result.items ≡ self }
    {
        let TimedEvents { items } = self;
        items
    }
}

/// What a link file with waits says: the sockets of its two ends, and the events in order.
#[derive(Drop)]
pub struct TimedScript {
    pub a: Socket,
    pub b: Socket,
    pub events: TimedEvents,
}
