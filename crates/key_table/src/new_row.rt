//! Rows that an operator adds while the table is in use, and rows that are withdrawn.
ghost use Rattle.std.specs.Prelude.{◌≡◌, ◌≤◌, length, IfOk};
ghost use Rattle.std.specs.List.{position_from};
ghost use Rattle.book_keys.specs.MasterKeys.{IsMasterKey};
ghost use Rattle.book_keys.specs.Rows.{row_limit};
ghost use Rattle.book_keys.specs.Overlaps.{overlaps};
ghost use Rattle.book_keys.specs.Tables.{disabled, row_of_new};

use crate::master_key::MasterKey;
use crate::overlap::overlaps;
use crate::row::Row;
use book_keys::{Direction, NewRow};
use std::alloc::{AllocError, Global};

/// The row that is added.
pub(crate) fn row_of_new(alloc: Global, new: NewRow) -> Result<Row, AllocError>
    requires master { IsMasterKey new.master }
    ensures { IfOk result (λ r. r ≡ row_of_new new) }
{
    let mut peers = Vec::new(alloc);
    peers.push(None)?;
    Ok(Row {
        recv_id: new.recv_id,
        send_id: new.send_id,
        peers,
        local_port: None,
        peer_port: None,
        algorithm: new.algorithm,
        master: MasterKey {
            bytes: new.master.into_vec(),
        },
        with_options: new.with_options,
        direction: new.direction,
        sending: new.sending,
        accepting: new.accepting,
    })
}

/// The number of the first row that overlaps the row.
pub(crate) fn overlapping(rows: &[Row], row: &Row) -> Option<u8>
    requires { length rows.now ≤ row_limit }
    ensures { result ≡ position_from (λ a. overlaps a row.now) 1 rows.now }
{
    for (i, one) in rows.iter().enumerate() {
        if overlaps(one, row) {
            return Some((i + 1) as u8);
        }
    }
    None
}

/// Takes a row out of use: it neither sends nor accepts.
pub(crate) fn disable(row: &mut Row)
    ensures { row.new ≡ disabled row.old }
{
    row.direction = Direction::Disabled;
}
