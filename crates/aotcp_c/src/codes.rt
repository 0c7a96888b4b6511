//! The codes that calls answer.
ghost use Rattle.std.specs.Prelude.{◌≡◌};
ghost use Rattle.aotcp_c.specs.Codes.{added_code, begun_code, done_code, given_code, withdrawn_code};

use book_keys::{AddRefusal, NoRow};
use stack_ends::NodeRefusal;
use tcp_endpoint::GiveAnswer;

/// It was done.
pub(crate) const OK: i32 = 0;

/// The handle holds no stack.
pub(crate) const NO_STACK: i32 = 1;

/// The handle holds one already.
pub(crate) const HELD: i32 = 2;

/// Memory ran out.
pub(crate) const MEMORY: i32 = 3;

/// A family other than 4 and 6.
pub(crate) const FAMILY: i32 = 4;

/// A time past the year 9999.
pub(crate) const TIME: i32 = 5;

/// Too small a room.
pub(crate) const ROOM: i32 = 6;

/// Another number of connections than 1 to 1,024.
pub(crate) const MOST: i32 = 7;

/// No row stands so.
pub(crate) const ROW: i32 = 8;

/// The key file has a fault.
pub(crate) const FAULT: i32 = 9;

/// No node has the address.
pub(crate) const NO_NODE: i32 = 10;

/// No row has the number.
pub(crate) const NO_ROW: i32 = 11;

/// The pair isn't held.
pub(crate) const NO_CONNECTION: i32 = 12;

/// Nothing is due.
pub(crate) const NOTHING: i32 = 19;

/// What came of beginning a connection.
pub(crate) fn begun_code(began: Result<(), NodeRefusal>) -> i32
    ensures { result ≡ begun_code began }
{
    match began {
        Ok(()) => 0,
        Err(NodeRefusal::Memory) => 3,
        Err(NodeRefusal::InUse) => 13,
        Err(NodeRefusal::Full) => 14,
    }
}

/// Whether the pair was held.
pub(crate) fn done_code(held: bool) -> i32
    ensures { result ≡ done_code held }
{
    if held { 0 } else { 12 }
}

/// What came of giving a piece.
pub(crate) fn given_code(answer: Option<GiveAnswer>) -> i32
    ensures { result ≡ given_code answer }
{
    match answer {
        None => 12,
        Some(GiveAnswer::Ok) => 0,
        Some(GiveAnswer::Full) => 15,
        Some(GiveAnswer::Closed) => 16,
    }
}

/// What came of adding a row.
pub(crate) fn added_code(added: Result<u8, AddRefusal>) -> i32
    ensures { result ≡ added_code added }
{
    match added {
        Ok(_) => 0,
        Err(AddRefusal::Memory) => 3,
        Err(AddRefusal::TooMany) => 17,
        Err(AddRefusal::Overlap(_)) => 18,
    }
}

/// What came of withdrawing a row.
pub(crate) fn withdrawn_code(withdrawn: Result<(), NoRow>) -> i32
    ensures { result ≡ withdrawn_code withdrawn }
{
    match withdrawn {
        Ok(()) => 0,
        Err(_) => 11,
    }
}
