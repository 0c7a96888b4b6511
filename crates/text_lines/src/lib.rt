//! Inputs of lines, as each command reads them: the lines that say something with their numbers, and
//! the words of a line with each kind of fault. Outputs of lines, as each command writes them: texts
//! with a space in front of each.
#![tactic(auto)]

mod fault;
mod line_words;
mod lines;
mod said_lines;
mod texts;
mod word_problem;

pub use fault::print_fault;
pub use line_words::LineWords;
pub use lines::count_lines;
pub use said_lines::{Saying, SayingLines};
pub use texts::{
    push_bytes, push_end, push_field, push_newline, push_number, push_socket, push_text,
};
pub use word_problem::WordProblem;
