//! The choice of the row to send with.
ghost use Rattle.std.specs.Prelude.{◌≡◌, ◌≤◌, None, length, option_map, IfSome};
ghost use Rattle.book_keys.specs.Choices.{next_row};
ghost use Rattle.book_keys.specs.Coordination.{row_to_send, rnext_key_id_of, choose, current_after, follow};
ghost use Rattle.book_keys.specs.Lookups.{number_of};
ghost use Rattle.ao_check.specs.Sendings.{told};

use book_base::Pair;
use key_table::{Row, Table};
use std::marker::Model;

/// The row to send with, and the KeyID and RNextKeyID that go with it (RFC 5925, section 7.4).
#[derive(Clone, Copy, Debug, PartialEq, Eq)]
pub struct Sending {
    /// The number of the row, from 1.
    pub row: u8,
    /// KeyID: the SendID of the row.
    pub key_id: u8,
    /// RNextKeyID: the RecvID of the row that is preferred for what comes in.
    pub rnext: u8,
}

/// The current row of a connection, which is the one to send with while it is sendable (RFC 5925,
/// section 6.1, current_key); seen as its number, if there is one.
#[derive(Drop)]
pub struct Choice {
    current: Option<u8>,
}

impl Model for Choice {
    ghost use Rattle.std.specs.Prelude.{ℕ, Option};

    ghost Value = { Option ℕ };

    ghost view = { λ c. c.current };
}

/// The RecvID of the row that is preferred for what comes in, else of the own row.
fn rnext_key_id(table: &Table, pair: &Pair, now: u64, own: &Row) -> u8
    ensures { result ≡ rnext_key_id_of (next_row table.now.rows pair.now now) own.now }
{
    match table.next_row(pair, now) {
        Some(next) => table.row(next).recv_id(),
        None => own.recv_id(),
    }
}

impl Choice {
    /// No row is current.
    pub fn new() -> Choice
        ensures { result ≡ None }
    {
        Choice { current: None }
    }

    /// The number of the current row.
    pub fn current(&self) -> Option<u8>
        ensures { result ≡ self.now }
    {
        self.current
    }

    /// The current row while it is sendable, else the one with the latest send start.
    fn row_to_send(&self, table: &Table, pair: &Pair, now: u64) -> Option<u8>
        ensures { result ≡ number_of (row_to_send self.now table.now.rows pair.now now) }
    {
        match self.current {
            Some(current) => {
                if table.is_sendable(current, pair, now) {
                    Some(current)
                } else {
                    table.send_row(pair, now)
                }
            }
            None => table.send_row(pair, now),
        }
    }

    /// The row to send with at the time, in seconds since 1970: the current row stays where it is
    /// sendable for the pair, else the sendable row with the greatest send start becomes current (RFC
    /// 5925, section 7.4, and own). KeyID is its SendID; RNextKeyID is the RecvID of the acceptable
    /// row with the greatest accept start, or its own where there is none. `None` exactly where no
    /// row is sendable; then nothing changes.
    pub fn for_sending(&mut self, table: &Table, pair: &Pair, now: u64) -> Option<Sending>
        ensures sending { result ≡ option_map told (choose self.old table.now.rows pair.now now) }
        ensures current { self.new ≡ current_after self.old (choose self.old table.now.rows pair.now now) }
        ensures low { IfSome result (λ s. 1 ≤ s.row) }
        ensures high { IfSome result (λ s. s.row ≤ length table.now.rows) }
    {
        let number = self.row_to_send(table, pair, now)?;
        let row = table.row(number);
        let rnext = rnext_key_id(table, pair, now, row);
        self.current = Some(number);
        Some(Sending {
            row: number,
            key_id: row.send_id(),
            rnext,
        })
    }

    /// Follows an RNextKeyID that was heard: the sendable row with this SendID becomes current; where there is
    /// none, nothing changes (RFC 5925, sections 6.1 and 7.5).
    #[tactic(auto, unfolding(book_keys::specs::Coordination::follow))]
    pub fn follow(&mut self, table: &Table, pair: &Pair, rnext: u8, now: u64)
        ensures { self.new ≡ follow self.old table.now.rows pair.now rnext now }
    {
        if let Some(number) = table.named_send(pair, rnext, now) {
            self.current = Some(number);
        }
    }
}
