//! Whether the sockets of a segment were opened anew behind the connection that is held between them.
ghost use Rattle.std.specs.Prelude.{◌≡◌, List};
ghost use Rattle.book_cmd_check.specs.Captures.{Connection};
ghost use Rattle.book_sessions.specs.Glimpses.{Opening, is_opened_anew};
ghost use Rattle.capture_check.specs.Checkers.{StandsFor};
ghost use Rattle.capture_listener.specs.Openings.{KeepsOpenings, kept_anew, kept_outdated};

use crate::openings::{KeptOpening, Openings};
use ao_base::is_same_socket;
use capture_check::{Connections, KnownConnection};
use tcp_segment::{Datagram, Flag};

fn opens_anew(isn: u32, opening: Option<KeptOpening>) -> bool
    ensures { result ≡ kept_anew isn opening }
{
    match opening {
        None => false,
        Some(opening) => opening.passes && opening.isn != isn,
    }
}

fn is_outdated(
    onward: Option<KeptOpening>,
    back: Option<KeptOpening>,
    known: Option<KnownConnection>,
) -> bool
    ensures { result ≡ kept_outdated onward back known }
{
    match known {
        None => false,
        Some(known) => {
            opens_anew(known.source_isn, onward) || opens_anew(known.destination_isn, back)
        }
    }
}

/// Whether the segment isn't a SYN, and behind the connection that is held between its sockets a verified SYN began
/// another one.
pub(crate) fn is_opened_anew(
    held: &Connections,
    openings: &Openings,
    datagram: &Datagram<'_>,
) -> bool
    ensures { (cs : List Connection) (opened : List Opening) → StandsFor held.now cs
        → KeepsOpenings openings.now.isns.entries opened
        → result ≡ is_opened_anew datagram.now cs opened }
{
    if datagram.has(Flag::Syn) {
        return false;
    }
    let source = datagram.source();
    let destination = datagram.destination();
    if is_same_socket(&source, &destination) {
        return false;
    }
    is_outdated(
        openings.get(source, destination),
        openings.get(destination, source),
        held.known(source, destination),
    )
}
