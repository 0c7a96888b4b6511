//! A place of a picture.

/// A place of a picture: so far from the left and from above.
#[derive(Clone, Copy, Debug)]
pub struct Point {
    pub x: u64,
    pub y: u64,
}
