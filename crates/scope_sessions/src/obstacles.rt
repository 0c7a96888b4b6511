//! What stands in the way of a row of a key file, in lines.
ghost use Rattle.std.specs.Prelude.{◌≡◌, ◌++◌, ◌∷◌, [], OnOk, codes};
ghost use Rattle.std.specs.List.{flat_map, list_any};
ghost use Rattle.book_scope_texts.specs.Addresses.{usual_address_text};
ghost use Rattle.book_sessions.specs.declared.outcome.SegmentOutcome.TheVariants.{Verified};
ghost use Rattle.book_sessions.specs.KeyLines.{absent_line, absent_text, doubt_line, held_line, held_line_at};
ghost use Rattle.book_sessions.specs.KeyLines.{held_text, is_peer_told, lacking_line, lines_without, obstacle_by};
ghost use Rattle.book_sessions.specs.KeyLines.{obstacle_line, obstacle_lines, unanswered_line, unseen_line};
ghost use Rattle.book_sessions.specs.Retiring.{all_without, goes_from, is_of_peer, shows_peer};
ghost use Rattle.capture_listener.specs.Known.{HasSession};

use crate::session_texts::{push_host, push_time};
use book_base::{Address, Socket};
use book_sessions::{KeyUse, SegmentOutcome};
use capture_listener::{
    Evidence, all_without, asks_for_row, carries_row, goes_from, goes_without, is_at_row,
    is_of_peer, leaves_use, returns_without, sees_peer,
};
use key_table::{Row, Table, Tables};
use std::alloc::AllocError;
use text_lines::{push_field, push_newline, push_text};

fn verified_word(carries: bool, asks: bool) -> &'static [u8]
    ensures { result.now ≡ held_text Verified carries asks }
{
    if carries {
        return b"still sends with it";
    }
    if asks {
        b"asks for it"
    } else {
        b"has not moved on"
    }
}

fn held_word(outcome: SegmentOutcome, carries: bool, asks: bool) -> &'static [u8]
    ensures { result.now ≡ held_text outcome carries asks }
{
    match outcome {
        SegmentOutcome::Verified => verified_word(carries, asks),
        SegmentOutcome::Refused(_) => b"not verified",
        SegmentOutcome::NoNode => b"not verified",
        SegmentOutcome::TooMany => b"not verified",
        SegmentOutcome::Unconfirmed => b"not verified",
        SegmentOutcome::UnconfirmedRefused(_) => b"not verified",
        SegmentOutcome::CutOff => b"cut off",
    }
}

// Puts what the sender of these does behind `out`, and the last packet of these.
fn push_obstacle(out: &mut Vec<u8>, one: &KeyUse, does: &[u8]) -> Result<(), AllocError>
    ensures { OnOk result (out.new.items ≡ out.old.items ++ obstacle_by one.now does.now) }
{
    out.push(b' ')?;
    push_host(out, &one.source.address)?;
    push_text(out, does)?;
    push_field(out, b"packet", one.packet)?;
    push_text(out, b"at")?;
    push_time(out, one.last)?;
    push_newline(out)
}

fn push_unseen(out: &mut Vec<u8>, address: &Address) -> Result<(), AllocError>
    ensures { OnOk result (out.new.items ≡ out.old.items ++ unseen_line address.now) }
{
    out.push(b' ')?;
    push_host(out, address)?;
    push_text(out, b"not seen")?;
    push_newline(out)
}

fn is_answered(live: &[KeyUse], one: &KeyUse) -> bool
    ensures { result ≡ list_any (goes_from one.now.destination one.now.source) live.now }
{
    live.iter()
        .any(|other| goes_from(&one.destination, &one.source, other))
}

fn push_unanswered(out: &mut Vec<u8>, evidence: &Evidence, one: &KeyUse) -> Result<(), AllocError>
    ensures { OnOk result (out.new.items ≡ out.old.items ++ unanswered_line evidence.now one.now) }
{
    if is_answered(evidence.live(), one) {
        Ok(())
    } else {
        push_unseen(out, &one.destination.address)
    }
}

fn push_held(
    out: &mut Vec<u8>,
    evidence: &Evidence,
    table: &Table,
    number: u64,
    row: &Row,
    one: &KeyUse,
) -> Result<(), AllocError>
    requires { HasSession evidence.now.uses one.now }
    ensures { OnOk result (out.new.items ≡ out.old.items ++ held_line evidence.now table.now number row.now one.now) }
{
    if !goes_without(evidence, table, number, row, one) {
        let does = held_word(
            one.outcome,
            carries_row(table, number, row, one),
            asks_for_row(table, row, one),
        );
        return push_obstacle(out, one, does);
    }
    if returns_without(evidence, table, number, row, one) {
        Ok(())
    } else {
        push_unanswered(out, evidence, one)
    }
}

// Puts what stands in the way behind `out`, of segments at the row.
fn push_held_at(
    out: &mut Vec<u8>,
    evidence: &Evidence,
    table: &Table,
    number: u64,
    row: &Row,
    one: &KeyUse,
) -> Result<(), AllocError>
    requires { HasSession evidence.now.uses one.now }
    ensures { OnOk result (out.new.items ≡ out.old.items ++ held_line_at evidence.now table.now number row.now
        one.now) }
{
    if is_at_row(table, row, one) {
        push_held(out, evidence, table, number, row, one)
    } else {
        Ok(())
    }
}

fn push_all_held(
    out: &mut Vec<u8>,
    evidence: &Evidence,
    table: &Table,
    number: u64,
    row: &Row,
) -> Result<(), AllocError>
    ensures { OnOk result (out.new.items ≡ out.old.items ++ flat_map
        (held_line_at evidence.now table.now number row.now) evidence.now.live) }
{
    for one in evidence.live() {
        push_held_at(out, evidence, table, number, row, one)?;
    }
    Ok(())
}

fn push_no_peer(out: &mut Vec<u8>, peer: &Option<Address>) -> Result<(), AllocError>
    ensures { OnOk result (out.new.items ≡ out.old.items ++ absent_text peer.now) }
{
    match peer {
        None => out.extend_from_slice(b"  no peer seen\n"),
        Some(address) => push_unseen(out, address),
    }
}

fn is_peer_met(live: &[KeyUse], table: &Table, row: &Row, peer: &Option<Address>) -> bool
    ensures { result ≡ list_any (is_of_peer table.now row.now peer.now) live.now }
{
    live.iter().any(|one| is_of_peer(table, row, peer, one))
}

// Whether the peer was seen; once all at the row does without it, in a connection that shows it.
fn is_peer_told(
    evidence: &Evidence,
    table: &Table,
    row: &Row,
    without: bool,
    peer: &Option<Address>,
) -> bool
    ensures { result ≡ is_peer_told evidence.now table.now row.now without peer.now }
{
    if without {
        sees_peer(evidence, table, row, peer)
    } else {
        is_peer_met(evidence.live(), table, row, peer)
    }
}

fn push_absent(
    out: &mut Vec<u8>,
    evidence: &Evidence,
    table: &Table,
    row: &Row,
    without: bool,
    peer: &Option<Address>,
) -> Result<(), AllocError>
    ensures { OnOk result (out.new.items ≡ out.old.items ++ absent_line evidence.now table.now row.now without
        peer.now) }
{
    if is_peer_told(evidence, table, row, without, peer) {
        Ok(())
    } else {
        push_no_peer(out, peer)
    }
}

fn push_all_absent(
    out: &mut Vec<u8>,
    evidence: &Evidence,
    table: &Table,
    row: &Row,
    without: bool,
) -> Result<(), AllocError>
    ensures { OnOk result (out.new.items ≡ out.old.items ++ flat_map
        (absent_line evidence.now table.now row.now without) row.now.peers) }
{
    for peer in row.peers() {
        push_absent(out, evidence, table, row, without, peer)?;
    }
    Ok(())
}

fn push_no_row(out: &mut Vec<u8>, source: &Socket, destination: &Socket) -> Result<(), AllocError>
    ensures { OnOk result (out.new.items ≡ out.old.items ++ obstacle_line (codes "without it no row to send with later"
        ∷ usual_address_text source.now.address ∷ usual_address_text destination.now.address ∷ [])) }
{
    out.extend_from_slice(b"  without it no row to send with later")?;
    push_host(out, &source.address)?;
    push_host(out, &destination.address)?;
    push_newline(out)
}

fn push_lacking(
    out: &mut Vec<u8>,
    evidence: &Evidence,
    tables: &Tables,
    table: &Table,
    row: &Row,
    one: &KeyUse,
) -> Result<(), AllocError>
    ensures { OnOk result (out.new.items ≡ out.old.items ++ lacking_line evidence.now tables.now table.now row.now
        one.now) }
{
    if leaves_use(evidence, tables, table, row, one) {
        Ok(())
    } else {
        push_no_row(out, &one.source, &one.destination)
    }
}

fn push_all_lacking(
    out: &mut Vec<u8>,
    evidence: &Evidence,
    tables: &Tables,
    table: &Table,
    row: &Row,
) -> Result<(), AllocError>
    ensures { OnOk result (out.new.items ≡ out.old.items ++ flat_map
        (lacking_line evidence.now tables.now table.now row.now) evidence.now.live) }
{
    for one in evidence.live() {
        push_lacking(out, evidence, tables, table, row, one)?;
    }
    Ok(())
}

fn push_lacking_lines(
    out: &mut Vec<u8>,
    evidence: &Evidence,
    tables: &Tables,
    table: &Table,
    row: &Row,
    without: bool,
) -> Result<(), AllocError>
    ensures { OnOk result (out.new.items ≡ out.old.items ++ lines_without evidence.now tables.now table.now row.now
        without) }
{
    if without {
        push_all_lacking(out, evidence, tables, table, row)
    } else {
        Ok(())
    }
}

fn push_doubt(out: &mut Vec<u8>, evidence: &Evidence) -> Result<(), AllocError>
    ensures { OnOk result (out.new.items ≡ out.old.items ++ doubt_line evidence.now.doubt) }
{
    if evidence.doubt() {
        out.extend_from_slice(b"  packets passed over that may be segments\n")
    } else {
        Ok(())
    }
}

/// Puts the lines of all that stands in the way of a row behind `out`.
pub(crate) fn push_obstacles(
    out: &mut Vec<u8>,
    evidence: &Evidence,
    tables: &Tables,
    table: &Table,
    number: u64,
    row: &Row,
) -> Result<(), AllocError>
    ensures { OnOk result (out.new.items ≡ out.old.items ++ obstacle_lines evidence.now tables.now table.now number
        row.now) }
{
    let without = all_without(evidence, table, number, row);
    push_all_held(out, evidence, table, number, row)?;
    push_all_absent(out, evidence, table, row, without)?;
    push_lacking_lines(out, evidence, tables, table, row, without)?;
    push_doubt(out, evidence)
}
