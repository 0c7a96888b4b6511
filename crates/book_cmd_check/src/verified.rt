//! What the verifying of test vectors answers.

use book_base::Bytes;

/// What `vectors` answers: its text, and how many vectors differ.
#[derive(Debug, Drop)]
pub struct Verified {
    pub text: Bytes,
    pub differing: u32,
}
