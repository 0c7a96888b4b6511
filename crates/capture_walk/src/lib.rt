//! One loop over the packets of a capture: each is told before the source is asked for more.
//!
//! `walk` reads a capture and hands each packet to a `Hearer`; `hear_next` is one step of it. What a hearer
//! makes of the packets is its own: how it stands after them, and the text that it tells of them before all is
//! read.
#![tactic(auto)]

mod fronts;
mod hearer;
mod interfaces;
mod reader;
mod walking;

pub use capture_reader::{
    BlockFault, BodyFault, CaptureFault, Cause, Header, PcapHeadFault, RecordFault, Skipped,
};
pub use hearer::{HearHalt, Heard, Hearer, tell};
pub use reader::{CaptureHalt, CaptureReader, CaptureStep};
pub use walking::{WalkEnd, WalkHalt, hear_next, walk};
