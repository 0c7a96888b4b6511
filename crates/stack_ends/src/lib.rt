//! The ends of a stack under the table of their keys and at their clock: each call is an event of a
//! plain node.
#![tactic(auto)]

mod answer;
mod arrival;
mod calls;
mod ends;
mod node;
mod open;
mod rows;
mod send;
mod start;
mod status;

pub use answer::{NodeArrival, NodeRefusal};
pub use calls::Taken;
pub use ends::Ends;
pub use node::Node;
pub use send::{Says, Spoken};
