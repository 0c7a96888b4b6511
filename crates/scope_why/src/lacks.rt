//! What a row lacks to take a segment.
ghost use Rattle.std.specs.Prelude.{◌≡◌, ◌++◌, ◌==◌, nat_le, OnOk, codes, decimal};
ghost use Rattle.book_scope_texts.specs.Instants.{instant_text};
ghost use Rattle.book_why.specs.Lacks.{lack, lacks, lifetime_lacks, pair_lacks};

use ao_base::push_decimal;
use book_base::Pair;
use key_table::{Lifetime, Row, fits_port, has_peer};
use scope_texts::push_instant;
use std::alloc::AllocError;

fn push_lack(out: &mut Vec<u8>, good: bool, text: &[u8]) -> Result<(), AllocError>
    ensures { OnOk result (out.new.items ≡ out.old.items ++ lack good text.now) }
{
    if good {
        return Ok(());
    }
    out.extend_from_slice(b", ")?;
    out.extend_from_slice(text)
}

fn push_begins(out: &mut Vec<u8>, first: u64, now: u64) -> Result<(), AllocError>
    ensures { OnOk result (out.new.items ≡ out.old.items ++ lack (nat_le first now)
        (codes "begins at " ++ instant_text first)) }
{
    if first <= now {
        return Ok(());
    }
    out.extend_from_slice(b", begins at ")?;
    push_instant(out, first)
}

fn push_ended(out: &mut Vec<u8>, last: u64, now: u64) -> Result<(), AllocError>
    ensures { OnOk result (out.new.items ≡ out.old.items ++ lack (nat_le now last)
        (codes "ended at " ++ instant_text last)) }
{
    if now <= last {
        return Ok(());
    }
    out.extend_from_slice(b", ended at ")?;
    push_instant(out, last)
}

fn push_lifetime_lacks(out: &mut Vec<u8>, lifetime: Lifetime, now: u64) -> Result<(), AllocError>
    ensures { OnOk result (out.new.items ≡ out.old.items ++ lifetime_lacks lifetime now) }
{
    push_begins(out, lifetime.first, now)?;
    push_ended(out, lifetime.last, now)
}

fn push_pair_lacks(out: &mut Vec<u8>, row: &Row, pair: &Pair) -> Result<(), AllocError>
    ensures { OnOk result (out.new.items ≡ out.old.items ++ pair_lacks row.now pair.now) }
{
    push_lack(
        out,
        has_peer(row.peers(), &pair.remote.address),
        b"for another peer",
    )?;
    push_lack(
        out,
        fits_port(row.local_port(), pair.local.port),
        b"for another local port",
    )?;
    push_lack(
        out,
        fits_port(row.peer_port(), pair.remote.port),
        b"for another peer port",
    )
}

fn push_id(out: &mut Vec<u8>, id: u8) -> Result<(), AllocError>
    ensures { OnOk result (out.new.items ≡ out.old.items ++ decimal id) }
{
    push_decimal(out, u64::from(id))
}

fn push_id_lack(out: &mut Vec<u8>, recv_id: u8, id: u8) -> Result<(), AllocError>
    ensures { OnOk result (out.new.items ≡ out.old.items ++ lack (recv_id == id)
        (codes "for KeyID " ++ decimal recv_id)) }
{
    if recv_id == id {
        return Ok(());
    }
    out.extend_from_slice(b", for KeyID ")?;
    push_id(out, recv_id)
}

/// Puts what a row lacks to take a segment with these sockets and this KeyID at this time, in seconds since
/// 1970, behind `out`: nothing exactly where it takes it. Where memory runs out a part of it may stand there.
#[tactic(auto, unfolding(book_why::specs::Lacks::lacks))]
pub(crate) fn push_lacks(
    out: &mut Vec<u8>,
    row: &Row,
    pair: &Pair,
    id: u8,
    now: u64,
) -> Result<(), AllocError>
    ensures { OnOk result (out.new.items ≡ out.old.items ++ lacks pair.now id now row.now) }
{
    push_pair_lacks(out, row, pair)?;
    push_lack(out, row.direction().receives(), b"not for what comes in")?;
    push_id_lack(out, row.recv_id(), id)?;
    push_lifetime_lacks(out, row.accepting(), now)
}
