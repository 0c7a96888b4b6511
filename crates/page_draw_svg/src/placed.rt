//! What is drawn of a rung, and where.
use book_base::{Bytes, End};
use book_draw::Rung;

/// In which form a run is drawn.
#[derive(Clone, Copy, Debug, PartialEq, Eq)]
pub enum Form {
    /// Lines of text.
    Text,
    /// A picture in SVG.
    Svg,
}

/// The stroke of an arrow, by what became of its segment.
#[derive(Clone, Copy, Debug, PartialEq, Eq)]
pub enum Stroke {
    /// It came as it was made, for the first time.
    Whole,
    /// It never comes.
    Lost,
    /// It came before.
    Again,
    /// A byte of it was altered.
    Altered,
    /// No end of the run made it.
    Injected,
}

/// Where the arrow of a segment begins.
#[derive(Clone, Copy)]
pub struct Start {
    /// The end that made it.
    pub end: End,
    /// The row in which it did, from 0.
    pub row: u32,
    /// KeyID: the key that it is under.
    pub key_id: u8,
}

/// A rung in its place.
#[derive(Drop)]
pub struct Placed {
    pub rung: Rung,
    /// Its row, from 0.
    pub row: u32,
    /// What is written on its arrow; nothing where it has none.
    pub label: Bytes,
    /// `Whole` where it has no arrow.
    pub stroke: Stroke,
    /// Where the arrow of what came begins; none where it was injected, and where nothing came.
    pub start: Option<Start>,
}
