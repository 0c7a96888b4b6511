//! Reading and writing: bytes from outside and to it, lines of a text and words of a line, numbers,
//! digits and addresses as text, a counter of steps.
#![tactic(auto)]

mod adapters;
mod address_text;
mod buffer;
mod decimal;
mod hexadecimal;
mod lines;
mod memory;
mod outside;
mod print;
mod quiet;
mod reader;
mod refill;
mod search;
mod sockets;
mod steps;
mod whole;

pub use adapters::{ReadSource, WriteSink};
pub use address_text::{print_address, read_address};
pub use buffer::Buffer;
pub use decimal::read_decimal;
pub use hexadecimal::{HexProblem, read_hex};
pub use lines::{Cut, next_line, next_word, past_line};
pub use memory::{MemSink, MemSource};
pub use outside::{Failed, Sink, Source};
pub use print::{push_decimal, push_hex};
pub use quiet::{QuietSink, QuietSource};
pub use reader::{LineReader, LineStep};
pub use refill::{Filled, fill};
pub use sockets::{are_two_of_a_family, is_one_family, is_same_address, is_same_socket};
pub use steps::Steps;
pub use whole::{ReadProblem, read_all, write_all};
