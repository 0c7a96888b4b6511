//! A day.

/// A day of the calendar: its year, from 1970 on, its month, from 1 to 12, and its day of the month, from
/// 1 on (ISO 8601, section 4.3).
#[derive(Clone, Copy, Debug, PartialEq, Eq)]
pub struct CalendarDay {
    pub year: u16,
    pub month: u8,
    pub day: u8,
}
