//! A table of sessions in JSON, for programs that watch it, and the tables that are written of a capture
//! while it is read. Definitions, with the plain types that code shares with them; the empty functions
//! carry theorems about them.
#![tactic(auto)]

mod form;
mod laws;

pub use form::{TableForm, TableRequest};
pub use laws::{each_session_and_row_has_an_entry, no_table_is_early};
