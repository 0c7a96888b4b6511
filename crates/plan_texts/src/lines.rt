//! A connection, an address that no node has, and two times, as they are written.
ghost use Rattle.std.specs.Prelude.{◌≡◌, ◌++◌, OnOk, option_map};
ghost use Rattle.book_scope_plan.specs.FindingTexts.{times_text};
ghost use Rattle.book_scope_plan.specs.PlanTexts.{connection_line, missing_text, missing_words, pair_words};
ghost use Rattle.book_scope_plan.specs.PlanTexts.{usual_socket_text};

use ao_base::push_decimal;
use book_base::{Address, Pair, Socket};
use key_table::Table;
use scope_texts::{push_address, push_instant};
use std::alloc::AllocError;

#[tactic(auto, unfolding(book_scope_plan::specs::PlanTexts::usual_socket_text))]
fn push_socket(out: &mut Vec<u8>, socket: &Socket) -> Result<(), AllocError>
    ensures { OnOk result (out.new.items ≡ out.old.items ++ usual_socket_text socket.now) }
{
    push_address(out, &socket.address)?;
    out.push(b' ')?;
    push_decimal(out, u64::from(socket.port))
}

/// Puts the words that name a connection behind `out`. An error only for want of memory.
#[tactic(auto, unfolding(book_scope_plan::specs::PlanTexts::pair_words))]
pub fn push_pair(out: &mut Vec<u8>, pair: &Pair) -> Result<(), AllocError>
    ensures { OnOk result (out.new.items ≡ out.old.items ++ pair_words pair.now) }
{
    out.extend_from_slice(b"connection ")?;
    push_socket(out, &pair.local)?;
    out.push(b' ')?;
    push_socket(out, &pair.remote)?;
    Ok(())
}

/// Puts the line that names a connection behind `out`. An error only for want of memory.
pub fn push_pair_line(out: &mut Vec<u8>, pair: &Pair) -> Result<(), AllocError>
    ensures { OnOk result (out.new.items ≡ out.old.items ++ connection_line pair.now) }
{
    push_pair(out, pair)?;
    out.push(b'\n')?;
    Ok(())
}

/// Puts the words behind `out` which say that no node has the address. An error only for want of memory.
#[tactic(auto, unfolding(book_scope_plan::specs::PlanTexts::missing_words))]
pub fn push_missing_words(out: &mut Vec<u8>, address: &Address) -> Result<(), AllocError>
    ensures { OnOk result (out.new.items ≡ out.old.items ++ missing_words address.now) }
{
    out.extend_from_slice(b"no node of the key file has ")?;
    push_address(out, address)
}

/// Puts the line behind `out` which says that no node has the address, where none has. An error only for want
/// of memory.
pub fn push_missing(
    out: &mut Vec<u8>,
    node: Option<&Table>,
    address: &Address,
) -> Result<(), AllocError>
    ensures { OnOk result (out.new.items ≡ out.old.items ++ missing_text (option_map (λ t. t.now) node.entry)
        address.now) }
{
    match node {
        Some(_) => Ok(()),
        None => {
            out.extend_from_slice(b"  ")?;
            push_missing_words(out, address)?;
            out.push(b'\n')?;
            Ok(())
        }
    }
}

/// Puts a time and a later one behind `out`. An error only for want of memory.
#[tactic(auto, unfolding(book_scope_plan::specs::FindingTexts::times_text))]
pub fn push_times(out: &mut Vec<u8>, first: u64, last: u64) -> Result<(), AllocError>
    ensures { OnOk result (out.new.items ≡ out.old.items ++ times_text first last) }
{
    push_instant(out, first)?;
    out.extend_from_slice(b" to ")?;
    push_instant(out, last)
}
