//! What the check hands on of a segment that passes.
use book_endpoint::Passed;
use tcp_segment::AoOption;

/// A segment that passed the check: what the check found, and the TCP-AO option in it.
#[derive(Clone, Copy, Debug)]
pub struct Passing<'a> {
    pub passed: Passed,
    pub option: AoOption<'a>,
}
