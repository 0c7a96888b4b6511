//! How a session is drawn.

/// In which form a session is drawn.
#[derive(Clone, Copy, Debug, PartialEq, Eq)]
pub enum LadderForm {
    /// Lines of text.
    Text,
    /// A picture in SVG.
    Picture,
}
