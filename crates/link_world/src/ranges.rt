//! What the types of sockets, rows and events say of their numbers, for the proofs. None of it does
//! anything when it runs.
ghost use Rattle.std.specs.Prelude.{◌≡◌, ◌<◌, true};
ghost use Rattle.std.specs.List.{AllByRecursion};
ghost use Rattle.book_segments.specs.Sockets.{are_two_of_a_family};
ghost use Rattle.book_segments.specs.Spelling.{AreBytes};
ghost use Rattle.law_link.specs.Laws.{EventFits, RowFits};
ghost use Rattle.book_keys.specs.Tables.{row_of_new};
ghost use Rattle.link_world.specs.Events.{CanHappen};
ghost use Rattle.link_world.specs.Ranges.{IsPlace, SocketsFit};

use book_base::{Address, Socket};
use book_link::{Action, Event};
use key_table::{NewRow, Table};

fn see_byte(byte: u8)
    ensures { byte < 256 }
{}

fn see_port(port: u16)
    ensures { port < 65536 }
{}

fn see_bytes(bytes: &[u8])
    ensures { AreBytes bytes.now }
{
    let _length = bytes.len();
}

/// An address is as long as its family's are, and each byte is below 256.
fn see_address(address: &Address)
    ensures { IsPlace address.now }
{
    match address {
        Address::V4(bytes) => see_bytes(bytes),
        Address::V6(bytes) => see_bytes(bytes),
    }
}

/// The sockets of two ends, whose addresses differ and are of one family.
pub(crate) fn see_sockets(a: &Socket, b: &Socket)
    requires family { are_two_of_a_family a.now.address b.now.address ≡ true }
    ensures { SocketsFit a.now b.now }
{
    see_address(&a.address);
    see_address(&b.address);
    see_port(a.port);
    see_port(b.port);
}

/// The columns of a table's rows fit their places.
pub(crate) fn see_rows(table: &Table)
    ensures { AllByRecursion RowFits table.now.rows }
{
    let _rows = table.entries();
}

/// Ids of a row are below 256, and its key is of bytes.
fn see_row(row: &NewRow)
    ensures { RowFits (row_of_new row.now) }
{
    see_byte(row.recv_id);
    see_byte(row.send_id);
    see_bytes(row.master.as_slice());
}

/// Initial sequence numbers are below 2^32, contents are bytes; a clock reads what can happen.
pub(crate) fn see_event(event: &Event)
    requires { CanHappen event.now }
    ensures { EventFits event.now }
{
    match event {
        Event::At(_, Action::Clock(_)) => {}
        Event::At(_, Action::Connect(isn)) => {
            let _isn = *isn;
        }
        Event::At(_, Action::Listen(isn)) => {
            let _isn = *isn;
        }
        Event::At(_, Action::Start(isn, peer)) => {
            let _isns = (*isn, *peer);
        }
        Event::At(_, Action::Give(piece)) => see_bytes(piece.as_slice()),
        Event::At(_, Action::Fill(_, byte)) => see_byte(*byte),
        Event::At(_, Action::Send) => {}
        Event::At(_, Action::Resend) => {}
        Event::At(_, Action::Deliver(_)) => {}
        Event::At(_, Action::Inject(bytes)) => see_bytes(bytes.as_slice()),
        Event::At(_, Action::Alter(_, _, mask, _)) => see_byte(*mask),
        Event::At(_, Action::Take(_)) => {}
        Event::At(_, Action::Close) => {}
        Event::At(_, Action::Abort) => {}
        Event::At(_, Action::AddRow(row)) => see_row(row),
        Event::At(_, Action::Withdraw(_)) => {}
        Event::Dump(_) => {}
    }
}
