//! A retransmission timer.

/// A retransmission timer: its value in milliseconds (RTO), and what the samples gave, where there
/// was one (RFC 6298, section 2).
#[derive(Clone, Copy, Debug, PartialEq, Eq)]
pub struct Timer {
    pub value: u32,
    pub smoothed: Option<Smoothed>,
}

/// The smoothed round-trip time and its variation in milliseconds, SRTT and RTTVAR (RFC 6298, section
/// 2).
#[derive(Clone, Copy, Debug, PartialEq, Eq)]
pub struct Smoothed {
    pub mean: u32,
    pub variation: u32,
}
