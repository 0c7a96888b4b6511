//! How far apart the dates of a scale are.

/// At which times a scale has dates, in UTC.
#[derive(Clone, Copy, Debug, PartialEq, Eq)]
pub enum DateUnit {
    /// Each hour.
    Hour,
    /// Each sixth hour, from midnight on.
    SixHours,
    /// Each midnight.
    Day,
    /// Midnight before the days 1, 11 and 21 of each month.
    TenDays,
    /// The beginning of each month.
    Month,
    /// The beginnings of January and July.
    HalfYear,
    /// The beginning of each year.
    Year,
    /// The beginning of each tenth year.
    Decade,
    /// The beginning of each hundredth year.
    Century,
    /// The beginning of each thousandth year.
    Millennium,
}
