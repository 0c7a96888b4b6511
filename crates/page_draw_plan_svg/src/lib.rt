//! Planned rollovers as a picture in SVG: the lines that text and picture have in common, where a time
//! stands in the picture, which seconds each bar and each mark shows, which dates its scale has, and the text of
//! the picture. Definitions; the empty functions carry theorems about them.
#![tactic(auto)]

mod laws;
mod unit;

pub use laws::{
    bars_show_the_rows, columns_are_of_the_time, marks_show_the_findings, pictures_are_of_the_text,
};
pub use unit::DateUnit;
