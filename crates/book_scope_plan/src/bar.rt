//! A bar of a plan.
use crate::duty::Duty;
use book_base::End;

/// A bar: the end and the number, from 1, of its row, and what of it the bar shows.
#[derive(Clone, Copy, Debug, PartialEq, Eq)]
pub struct Bar {
    pub end: End,
    pub number: u8,
    pub duty: Duty,
}
