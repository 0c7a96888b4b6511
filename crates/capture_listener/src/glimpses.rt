//! What a segment tells of initial sequence numbers where no handshake passed.
ghost use Rattle.std.specs.Prelude.{◌≡◌, false, true, List, OnErr, OnOk};
ghost use Rattle.book_segments.specs.Segments.{has, ACK, SYN};
ghost use Rattle.book_cmd_check.specs.Captures.{Connection, Saying, acknowledged_isn};
ghost use Rattle.book_cmd_check.specs.Handshakes.{and_given};
ghost use Rattle.book_sessions.specs.Glimpses.{Opening, answered_by, glimpsed, openings_after};
ghost use Rattle.capture_check.specs.Answers.{Says};
ghost use Rattle.capture_check.specs.Checkers.{IsSound, StandsFor};
ghost use Rattle.capture_listener.specs.Begun.{and_begun, completing};
ghost use Rattle.capture_listener.specs.Lines.{says_refused};
ghost use Rattle.capture_listener.specs.Openings.{KeepsOpenings};

use crate::lines::{is_judged, is_refused, is_unknown};
use crate::openings::{KeptOpening, Openings};
use book_cmd_check::GivenIsns;
use capture_check::{CheckLine, Connections, isns_told_by};
use key_table::Tables;
use std::alloc::{AllocError, Global};
use tcp_segment::{Datagram, Flag};

/// The numbers that the first ACK behind a SYN of this number tells (RFC 9293, section 3.5).
fn completing(datagram: &Datagram<'_>, isn: u32) -> GivenIsns
    ensures { result ≡ completing datagram.now isn }
{
    GivenIsns {
        one: datagram.source(),
        one_isn: isn,
        other: datagram.destination(),
        other_isn: datagram.acknowledgement().wrapping_sub(1),
    }
}

/// Takes it that a connection began with these numbers.
fn begin(
    guesses: &mut Connections,
    alloc: Global,
    tables: &Tables,
    given: GivenIsns,
) -> Result<(), AllocError>
    requires sound { IsSound tables.now guesses.old }
    ensures stands { (guessed : List Connection) → StandsFor guesses.old guessed
        → OnOk result (StandsFor guesses.new (and_given given guessed)) }
    ensures unchanged { OnErr result (guesses.new ≡ guesses.old) }
    ensures sound { IsSound tables.now guesses.new }
{
    guesses.hold(alloc, tables, given)?;
    Ok(())
}

/// Takes it that a connection began with these numbers, unless it is known with the first of them.
fn begin_anew(
    guesses: &mut Connections,
    alloc: Global,
    tables: &Tables,
    given: GivenIsns,
) -> Result<(), AllocError>
    requires sound { IsSound tables.now guesses.old }
    ensures stands { (guessed : List Connection) → StandsFor guesses.old guessed
        → OnOk result (StandsFor guesses.new (and_begun given guessed)) }
    ensures unchanged { OnErr result (guesses.new ≡ guesses.old) }
    ensures sound { IsSound tables.now guesses.new }
{
    match guesses.known(given.one, given.other) {
        None => begin(guesses, alloc, tables, given),
        Some(known) => {
            if known.source_isn == given.one_isn {
                return Ok(());
            }
            begin(guesses, alloc, tables, given)
        }
    }
}

/// The connections that are taken to have begun, after a segment with this line. Memory may run out only
/// where the segment was refused; then they are as they were.
pub(crate) fn glimpse(
    guesses: &mut Connections,
    alloc: Global,
    tables: &Tables,
    openings: &Openings,
    datagram: &Datagram<'_>,
    line: &CheckLine,
) -> Result<(), AllocError>
    requires sound { IsSound tables.now guesses.old }
    ensures stands { (said : Saying) (opened : List Opening) (guessed : List Connection) → Says line.now said
        → KeepsOpenings openings.now.isns.entries opened → StandsFor guesses.old guessed
        → OnOk result (StandsFor guesses.new (glimpsed datagram.now said opened guessed)) }
    ensures unchanged { OnErr result (guesses.new ≡ guesses.old) }
    ensures cause { OnErr result (says_refused line.now ≡ true) }
    ensures sound { IsSound tables.now guesses.new }
{
    if !datagram.has(Flag::Ack) {
        return Ok(());
    }
    if datagram.has(Flag::Syn) {
        if !is_refused(line) {
            return Ok(());
        }
        return begin(guesses, alloc, tables, isns_told_by(datagram));
    }
    if !is_unknown(line) {
        return Ok(());
    }
    match openings.get(datagram.source(), datagram.destination()) {
        None => Ok(()),
        Some(opening) => begin_anew(guesses, alloc, tables, completing(datagram, opening.isn)),
    }
}

// The initial sequence number that a SYN with ACK acknowledges.
fn acknowledged_isn(datagram: &Datagram<'_>) -> u32
    ensures { result ≡ acknowledged_isn datagram.now }
{
    datagram.acknowledgement().wrapping_sub(1)
}

/// Keeps no opening but the one that an answer acknowledges.
fn note_answer(openings: &mut Openings, datagram: &Datagram<'_>)
    ensures { (opened : List Opening) → KeepsOpenings openings.old.isns.entries opened
        → KeepsOpenings openings.new.isns.entries (answered_by datagram.now opened) }
{
    let isn = acknowledged_isn(datagram);
    match openings.get(datagram.destination(), datagram.source()) {
        None => {}
        Some(opening) => {
            if opening.isn != isn {
                openings.drop_way(datagram.destination(), datagram.source());
            }
        }
    }
}

/// Keeps what a SYN without ACK opens, with this line, and lets an opening go that a SYN with ACK doesn't answer.
/// Memory may run out only for a SYN without ACK; then all is as it was.
pub(crate) fn note_opening(
    openings: &mut Openings,
    datagram: &Datagram<'_>,
    line: &CheckLine,
) -> Result<(), AllocError>
    ensures keeps { (said : Saying) (opened : List Opening) → Says line.now said
        → KeepsOpenings openings.old.isns.entries opened
        → OnOk result (KeepsOpenings openings.new.isns.entries (openings_after datagram.now said opened)) }
    ensures unchanged { OnErr result (openings.new.isns.entries ≡ openings.old.isns.entries) }
    ensures cause { OnErr result ((has SYN datagram.now ≡ true) × (has ACK datagram.now ≡ false)) }
{
    if !is_judged(line) {
        return Ok(());
    }
    if !datagram.has(Flag::Syn) {
        return Ok(());
    }
    if datagram.has(Flag::Ack) {
        note_answer(openings, datagram);
        return Ok(());
    }
    let opening = KeptOpening {
        isn: datagram.sequence(),
        passes: line.is_pass(),
    };
    match openings.put(datagram.source(), datagram.destination(), opening) {
        Ok(()) => Ok(()),
        Err(error) => Err(error),
    }
}
