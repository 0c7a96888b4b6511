//! What `node` reads and writes: the files of a node, their runs and texts. Definitions, and the plain types
//! that they and the code share. Our own format.
#![tactic(auto)]

mod node;

pub use node::{Act, NodeEvent, NodeEvents, NodeScript};
