//! The lines of a capture, one for each packet, written as the capture is read and in constant memory.
#![tactic(auto)]

mod fault;
mod line;
mod write;

pub use capture_walk::{CaptureFault, Cause, RecordFault};
pub use fault::push_fault;
pub use line::{judged, push_reason};
pub use write::{LinesHalt, write_lines};
