//! What stands in the way of another lifetime of a row.

/// Why another lifetime of a row isn't enough to mend a plan. Rows are numbered from 1.
#[derive(Clone, Copy, Debug, PartialEq, Eq)]
pub enum Obstacle {
    /// It would end before it begins.
    Empty,
    /// The row would never end.
    Endless,
    /// The row would overlap this row of its table.
    Overlap(u8),
    /// No row of the other end would accept throughout what the row sends.
    Refused,
    /// At some time its end would have no row to send with.
    Gap,
}
