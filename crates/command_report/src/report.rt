//! The report of a command.

use book_base::Bytes;

/// The whole output of a command.
#[derive(Debug, Drop)]
pub struct Report {
    pub text: Bytes,
    /// Something in it is amiss: the status of the program is 1, and else 0.
    pub is_amiss: bool,
}
