//! The script of a node with many connections.
ghost use Rattle.std.specs.Prelude.{◌≡◌};

use book_base::{Address, Bytes, Pair};
use std::marker::Model;

/// What happens at one connection of a node.
#[derive(Drop)]
pub enum Act {
    /// It opens actively, with this initial sequence number.
    Open(u32),
    /// It waits for its peer, with this initial sequence number.
    Listen(u32),
    /// It is established, with its own initial sequence number and its peer's.
    Start(u32, u32),
    /// Its user gives it bytes to send, at least one.
    Give(Bytes),
    /// Its user takes at most so many bytes.
    Take(u16),
    /// It makes a segment, if it has one to send.
    Send,
    /// It makes a segment again that isn't acknowledged, or a probe.
    Resend,
    /// Its user has no more bytes to give.
    Close,
    /// Its user gives it up.
    Abort,
    /// It is dropped.
    Remove,
}

/// What happens at a node.
#[derive(Drop)]
pub enum NodeEvent {
    /// The node's clock reads so many seconds since 1970-01-01, at most 253402300799.
    Clock(u64),
    /// A datagram of 1 to 65575 bytes arrives.
    Inject(Bytes),
    /// Something happens at the connection of this pair.
    On(Pair, Act),
}

/// A list of events of a node.
#[derive(Drop)]
pub struct NodeEvents {
    items: Vec<NodeEvent>,
}

impl Model for NodeEvents {
    ghost use Rattle.std.specs.Prelude.{List};
    ghost use Rattle.book_cmd_node.specs.declared.node.NodeEvent.{NodeEvent as One};

    ghost Value = { List One };

    ghost view = { λ e. e.items.items };
}

impl NodeEvents {
    /// The events of the vector, in its order.
    pub fn from_vec(items: Vec<NodeEvent>) -> Self
        ensures { result ≡ items.items }
    {
        NodeEvents { items }
    }

    /// The events in order.
    pub fn as_slice(&self) -> &[NodeEvent]
        ensures { result.now ≡ self.now }
    {
        self.items.as_slice()
    }

    /// The vector of the events, in their order.
    pub fn into_vec(self) -> Vec<NodeEvent>
        ensures { result.items ≡ self }
    {
        let NodeEvents { items } = self;
        items
    }
}

/// What a node's file says: the node's address, and the events in order.
#[derive(Drop)]
pub struct NodeScript {
    pub address: Address,
    pub events: NodeEvents,
}
