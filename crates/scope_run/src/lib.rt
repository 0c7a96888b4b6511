//! `aoscope` as one call: it reads what the words ask for, makes what they ask for of it, and tells why where it
//! ends early. Its contract says, for every source and sink, what is read in which order, what is written, and which
//! status and which text on standard error each ending has.
#![tactic(auto)]

mod asked;
mod check;
mod cut;
mod draw;
mod echo;
mod entries;
mod halt;
mod keys;
mod ladder;
mod line;
mod lines;
mod pages;
mod plan;
mod reading;
mod report;
mod request;
mod retire;
mod sessions;
mod step;
mod tables;
mod tell;
mod top;
mod usage;
mod why;
mod word;
mod words;
mod words_reading;
mod words_tables;

pub use asked::Asked;
pub use line::{CommandLine, Files, Request, parse};
pub use pages::help_page;
pub use top::run;
pub use usage::{Usage, push_usage};
pub use word::{Page, Word};
