//! What link files say, with waits or without: the scripts that one can say, that it says no others,
//! and that each such script has a text which says it. Theorems alone, as contracts of empty functions.
#![tactic(auto)]

mod laws;

pub use laws::{files_say_scripts, scripts_have_texts, timed_files_say_scripts};
