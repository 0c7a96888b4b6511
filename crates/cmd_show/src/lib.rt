//! Datagrams shown as text, and test vectors of the algorithms verified.
//!
//! Both calls read a text of lines, and name the first faulty line with its kind. `show` writes the
//! fields of each datagram, or why the bytes are none; `vectors` writes for each vector whether what
//! is computed is what its line says. `answer_show` and `answer_vectors` are the commands over them.
#![tactic(auto)]

mod array;
mod connection;
mod datagram_text;
mod gap;
mod judged;
mod judgement;
mod keys;
mod lint;
mod premise;
mod shown_lines;
mod signed;
mod told_keys;
mod vector;
mod vector_lines;
mod vector_words;
mod way;

pub use datagram_text::{push_numbers, push_options};
pub use lint::answer_lint;
pub use premise::aligned_carries_through;
pub use shown_lines::answer_show;
pub use told_keys::answer_keys;
pub use vector_lines::answer_vectors;
