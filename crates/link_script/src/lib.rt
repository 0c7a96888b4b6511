//! The link file: two sockets, perhaps a shared key, and the events of a link, one a line. It is
//! read line by line and word by word, so that a mistake is named by its line and kind, and a
//! script is printed as a file that is read again as this script. A script with waits is read alike.
#![tactic(auto)]

mod head;
mod line_events;
mod name;
mod printer;
mod reader;
mod row_lines;
mod row_texts;
mod timed;

pub use book_cmd_link::{KeysFrom, Script, TimedScript};
pub use book_lines::TextFault;
pub use printer::print_script;
pub use reader::read_script;
pub use timed::read_timed;
