//! What doesn't hold of a plan.
use book_base::End;

/// What doesn't hold of a planned rollover. Rows are numbered from 1, times are seconds since 1970.
#[derive(Clone, Copy, Debug, PartialEq, Eq)]
pub enum Finding {
    /// No row of the other end accepts what this row of this end sends.
    NoPeerRow(End, u8),
    /// No row of the other end that accepts what this row of this end sends does so throughout.
    ShortAccept(End, u8),
    /// The first and the last time of a gap: throughout it this end has no row to send with, and it
    /// has one just before and just after, or the range that was asked about begins or ends there.
    Gap(End, u64, u64),
}
