//! What is asked of a planned rollover beside its judgement: how far the plan may be off, and in which
//! columns a row differs from the one that it is to meet. Definitions, with the plain types that code
//! shares with them; the empty functions carry theorems about the definitions.
#![tactic(auto)]

mod differences;
mod finding;
mod laws;
mod margin;
mod obstacle;
mod turn;

pub use differences::Differences;
pub use finding::Finding;
pub use laws::{
    alike_rows_accept, findings_are_of_lint, gaps_are_longest, lint_holds_within_margins,
    margins_are_greatest, rows_of_files_are_ordered, steady_rows_dont_turn, widened_rows_outlast,
};
pub use margin::Margin;
pub use obstacle::Obstacle;
pub use turn::{Role, Turn};
