//! What a capture's segments can't do: make a key look free, or hide the connection that follows theirs. Theorems about
//! the definitions, as clauses of functions that do nothing.
#![tactic(auto)]

mod forms;
mod laws;
mod lines_laws;

pub use forms::lines_are_those_of_the_line_form;
pub use laws::{
    nothing_old_frees_a_row, nothing_old_shows_anything, older_connections_hide_nothing,
};
pub use lines_laws::check_judges_what_lines_writes;
