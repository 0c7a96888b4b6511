//! The lines of an input and the words of a line: which lines say something, what a word says, the
//! kinds of a faulty word, the first fault of a text, and the lines of an output. Definitions alone,
//! with the plain types that code shares with them.
#![tactic(auto)]

mod line_kind;
mod text_fault;

pub use line_kind::LineKind;
pub use text_fault::TextFault;
