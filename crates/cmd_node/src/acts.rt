//! What happens at an end that is held.
ghost use Rattle.std.specs.Prelude.{◌≡◌, ◌≤◌, ℕ, List, length, IfOk};
ghost use Rattle.book_keys.specs.Rows.{Row};
ghost use Rattle.book_endpoint.specs.States.{EndState};
ghost use Rattle.tcp_endpoint.specs.Ends.{Stands, FitsEnd, pair_at_end};
ghost use Rattle.book_cmd_node.specs.NodeRuns.{take_called};
ghost use Rattle.cmd_node.specs.Calls.{Follows, HasActed, told_given, told_made, told_again};
ghost use Rattle.cmd_node.specs.Told.{length_told};

use crate::told::Told;
use ao_base::Steps;
use book_base::Bytes;
use book_cmd_node::Act;
use key_table::Table;
use std::alloc::{AllocError, Global};
use std::sync::ledger::Ledger;
use tcp_endpoint::{Emission, Endpoint, GiveAnswer, Resent};

/// What it answers that a piece was given, or wasn't.
fn told_given(answer: GiveAnswer) -> Told
    ensures { result ≡ told_given answer }
{
    match answer {
        GiveAnswer::Ok => Told::Done,
        GiveAnswer::Full => Told::Full,
        GiveAnswer::Closed => Told::Closed,
    }
}

/// What it answers that a segment was made, or wasn't.
fn told_made(emission: Emission) -> Told
    ensures { result ≡ told_made emission }
{
    match emission {
        Emission::Segment(made) => Told::Sent(made),
        Emission::NoKey => Told::NoKey,
        Emission::Idle => Told::Idle,
    }
}

/// The same of a segment that is made again.
fn told_again(resent: Resent) -> Told
    ensures { result ≡ told_again resent }
{
    match resent {
        Resent::Segment(made) => Told::Sent(made),
        Resent::NoKey => Told::NoKey,
        Resent::Nothing => Told::Nothing,
    }
}

/// So many of the ready bytes are taken, or all.
fn take(alloc: Global, end: &mut Endpoint, count: u16) -> Result<Told, AllocError>
    ensures took { IfOk result (λ told. (s : EndState) (room : List ℕ) → Stands end.old s
        → Follows end.new room told (take_called count s)) }
    ensures short { IfOk result (λ told. length_told told ≡ 0) }
    ensures pair { pair_at_end end.new ≡ pair_at_end end.old }
    ensures fits { (rows : List Row) → FitsEnd rows end.old → FitsEnd rows end.new }
{
    let mut bytes = Vec::new(alloc);
    bytes.resize(usize::from(count), 0)?;
    let taken = end.take(bytes.as_mut_slice());
    bytes.truncate(taken);
    let at_end = end.at_end();
    Ok(Told::Took(Bytes::from_vec(bytes), at_end))
}

/// A call of a held end. Its segment, if it makes one, stands in front of `room`, which has at least
/// 1,500 bytes.
pub(crate) fn act_on<L: Ledger>(
    alloc: Global,
    end: &mut Endpoint,
    table: &Table,
    now: u64,
    act: &Act,
    room: &mut [u8],
    steps: &mut Steps<L>,
) -> Result<Told, AllocError>
    requires fits { FitsEnd table.now.rows end.old }
    requires room { 1500 ≤ length room.old }
    ensures acted { IfOk result (λ told. (s : EndState) → Stands end.old s
        → HasActed table.now.rows (pair_at_end end.old) now s act.now end.new room.new told) }
    ensures short { IfOk result (λ told. length_told told ≤ 1500) }
    ensures pair { pair_at_end end.new ≡ pair_at_end end.old }
    ensures fits { FitsEnd table.now.rows end.new }
{
    match act {
        Act::Give(piece) => Ok(told_given(end.give(piece.as_slice()))),
        Act::Take(count) => take(alloc, end, *count),
        Act::Send => Ok(told_made(end.emit(table, now, room, steps))),
        Act::Resend => Ok(told_again(end.resend(table, now, room, steps))),
        Act::Close => {
            end.close();
            Ok(Told::Done)
        }
        Act::Abort => {
            end.abort();
            Ok(Told::Done)
        }
        Act::Open(_) => Ok(Told::InUse),
        Act::Listen(_) => Ok(Told::InUse),
        Act::Start(_, _) => Ok(Told::InUse),
        Act::Remove => Ok(Told::InUse),
    }
}
