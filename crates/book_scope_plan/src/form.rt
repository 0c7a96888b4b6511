//! In which form a plan is written.

/// In which form what is said of planned rollovers is written.
#[derive(Clone, Copy, Debug, PartialEq, Eq)]
pub enum PlanForm {
    /// The lines of the calendar, and of what is wrong.
    Lines,
    /// Bars over time, as lines of text.
    Bars,
    /// Bars over time, as one picture in SVG.
    Picture,
}
