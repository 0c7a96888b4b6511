//! What the judging of connections answers.

use book_base::Bytes;

/// What the judging of connections comes to: a line for each connection, and whether some connection isn't aligned.
#[derive(Drop)]
pub(crate) struct Judged {
    pub(crate) text: Bytes,
    pub(crate) has_misfit: bool,
}
