//! A segment whose MAC is in question.
use key_table::{Row, Table};
use tcp_segment::{AoOption, Datagram};

/// A segment whose MAC is in question, with its one TCP-AO option: its number in the stream, the initial
/// sequence numbers of its source and its destination, and the row under which it is judged.
#[derive(Drop)]
pub struct Suspect<'a> {
    pub datagram: &'a Datagram<'a>,
    pub ao: AoOption<'a>,
    pub number: u64,
    pub source_isn: u32,
    pub destination_isn: u32,
    pub row: &'a Row,
}

/// The tables of the two nodes of a segment; the sender may be no node.
#[derive(Clone, Copy)]
pub struct BothTables<'a> {
    pub receiver: &'a Table,
    pub sender: Option<&'a Table>,
}
