//! What the check found of a segment that passes.
ghost use Rattle.std.specs.Prelude.{◌≡◌, ◌+◌, ◌&&◌, not, List, min, option_map};
ghost use Rattle.book_segments.specs.Segments.{has, segment_length, ACK, SYN};
ghost use Rattle.book_endpoint.specs.States.{number_limit};
ghost use Rattle.book_cmd_check.specs.Captures.{Connection, Saying};
ghost use Rattle.book_sessions.specs.Listening.{pass_of};
ghost use Rattle.book_sessions.specs.Sessions.{flow_isns, syn_isns, seen_pass};
ghost use Rattle.capture_check.specs.Answers.{Says};
ghost use Rattle.capture_check.specs.Checkers.{StandsFor};
ghost use Rattle.capture_listener.specs.Lines.{pass_by_line, pass_by_verdict};
ghost use Rattle.capture_listener.specs.Passes.{isns_known};

use ao_base::is_same_socket;
use book_endpoint::{Passed, Refusal};
use book_sessions::{FlowIsns, SeenPass};
use capture_check::{CheckLine, Connections, KnownConnection};
use tcp_segment::{Datagram, Flag};

/// The greatest number of a byte.
const LIMIT: u64 = 1 << 63;

fn is_opening(datagram: &Datagram<'_>) -> bool
    ensures { result ≡ (has SYN datagram.now && not (has ACK datagram.now)) }
{
    datagram.has(Flag::Syn) && !datagram.has(Flag::Ack)
}

fn syn_isns(datagram: &Datagram<'_>) -> FlowIsns
    ensures { result ≡ syn_isns datagram.now }
{
    FlowIsns {
        own: datagram.sequence(),
        peer: None,
    }
}

fn isns_known(others: FlowIsns, known: Option<KnownConnection>) -> FlowIsns
    ensures { result ≡ isns_known others known }
{
    match known {
        None => others,
        Some(known) => FlowIsns {
            own: known.source_isn,
            peer: Some(known.destination_isn),
        },
    }
}

fn flow_isns(held: &Connections, datagram: &Datagram<'_>) -> FlowIsns
    ensures { (cs : List Connection) → StandsFor held.now cs → result ≡ flow_isns datagram.now cs }
{
    let others = syn_isns(datagram);
    if is_opening(datagram) {
        return others;
    }
    let source = datagram.source();
    let destination = datagram.destination();
    if is_same_socket(&source, &destination) {
        return others;
    }
    isns_known(others, held.known(source, destination))
}

fn after(first: u64, length: u64) -> u64
    ensures { result ≡ min (first + length) number_limit }
{
    if first > LIMIT {
        return LIMIT;
    }
    if length > LIMIT - first {
        return LIMIT;
    }
    first + length
}

fn pass_by_verdict(verdict: &Result<Passed, Refusal>) -> Option<Passed>
    ensures { result ≡ pass_by_verdict verdict.now }
{
    match verdict {
        Ok(passed) => Some(*passed),
        Err(_) => None,
    }
}

fn pass_by_line(line: &CheckLine) -> Option<Passed>
    ensures { result ≡ pass_by_line line.now }
{
    match line {
        CheckLine::Verdict(verdict, _) => pass_by_verdict(verdict),
        _ => None,
    }
}

/// What the check found of a segment with this line, where it passes, by the connections that are held once it
/// was heard.
pub(crate) fn seen_pass(
    held: &Connections,
    datagram: &Datagram<'_>,
    line: &CheckLine,
) -> Option<SeenPass>
    ensures { (said : Saying) (cs : List Connection) → Says line.now said → StandsFor held.now cs
        → result ≡ option_map (seen_pass datagram.now cs) (pass_of said) }
{
    match pass_by_line(line) {
        None => None,
        Some(passed) => Some(SeenPass {
            row: passed.row,
            first: passed.number,
            after: after(passed.number, datagram.segment_length()),
            isns: flow_isns(held, datagram),
        }),
    }
}
