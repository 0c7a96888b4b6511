//! The check of segments and their signing (RFC 5925, sections 7.4 and 7.5): an association holds
//! what one end knows of a connection, and the traffic keys that it derived.
//!
//! An association takes all its memory when it is made. The table that its calls are given fits it:
//! the table that it was made with does, and goes on fitting while it has no more rows than the
//! association has room for.
#![tactic(auto)]

mod association;
mod choice;
mod compare;
mod context;
mod key;
mod laws;
mod passing;
mod screen;
mod syn;
mod under;

pub use association::Association;
pub use book_endpoint::{Passed, Refusal};
pub use choice::{Choice, Sending};
pub use laws::{fits_once_added, fits_once_withdrawn, signed_passes};
pub use passing::Passing;
pub use syn::check_syn;
pub use under::{check_under, mac_under};
