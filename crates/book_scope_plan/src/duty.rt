//! What a row does, and in how much of a slice of time.

/// What a row of a key table does for a connection.
#[derive(Clone, Copy, Debug, PartialEq, Eq)]
pub enum Duty {
    /// It accepts what comes in.
    Accepts,
    /// It sends what goes out.
    Sends,
}

/// In how many seconds of a slice something holds.
#[derive(Clone, Copy, Debug, PartialEq, Eq)]
pub enum Filling {
    /// In none.
    Never,
    /// In some, but not in all.
    Partly,
    /// In each.
    Wholly,
}
