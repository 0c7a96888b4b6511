//! Which tables of a capture are written, and what as.

/// In which form a table of sessions is written.
#[derive(Clone, Copy, Debug, PartialEq, Eq)]
pub enum TableForm {
    /// Lines of words.
    Lines,
    /// A text in JSON.
    Json,
}

/// Which tables of a capture are asked for: in which form, whether foreign sessions are listed, and after how
/// many seconds of the capture's own time the next one is due, where not only the last one is asked for.
#[derive(Clone, Copy, Debug, PartialEq, Eq)]
pub struct TableRequest {
    pub form: TableForm,
    pub all: bool,
    pub every: Option<u64>,
}
