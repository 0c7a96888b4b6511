//! The judgement on the tables of the two ends of a connection.
use book_base::End;

/// Whether two ends' tables carry a connection through its rollovers; end A is the local one. Rows
/// are numbered from 1, times are seconds since 1970.
#[derive(Clone, Copy, Debug, PartialEq, Eq)]
pub enum LintAnswer {
    /// Each row that sends is accepted at the other end throughout, and neither end has a gap.
    Aligned,
    /// No row of the other end accepts what this row of this end sends.
    NoPeerRow(End, u8),
    /// No row of the other end that accepts what this row of this end sends does so throughout.
    ShortAccept(End, u8),
    /// The least time of the range at which this end has no row to send with.
    Gap(End, u64),
}
