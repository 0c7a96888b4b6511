//! The initial sequence numbers that lines give.
ghost use Rattle.std.specs.Prelude.{◌≡◌, [], MatchResult, Ok};
ghost use Rattle.book_lines.specs.Said.{at_number, said_by};
ghost use Rattle.book_sessions.specs.GivenLines.{can_connect, given_isns_in, given_isns_of, other_socket_in};
ghost use Rattle.text_lines.specs.Readings.{Fails, gives};
ghost use Rattle.scope_sessions.specs.Given.{given_from};

use ao_base::{is_one_family, is_same_socket};
use book_base::Socket;
use book_lines::{LineKind, TextFault};
use book_sessions::GivenIsns;
use scope_texts::read_socket_words;
use std::alloc::Global;
use text_lines::{LineWords, Saying, SayingLines, count_lines};

fn can_connect(one: Socket, other: Socket) -> bool
    ensures { result ≡ can_connect one other }
{
    is_one_family(&one.address, &other.address) && !is_same_socket(&one, &other)
}

/// A socket that can connect with this one; `Range` for another one.
#[tactic(auto, unfolding(book_sessions::specs::GivenLines::other_socket_in))]
fn read_other(one: Socket, words: &mut LineWords) -> Result<Socket, LineKind>
    ensures { gives result words.new ≡ other_socket_in one words.old }
{
    let other = read_socket_words(words)?;
    if can_connect(one, other) {
        Ok(other)
    } else {
        Err(LineKind::Range)
    }
}

/// Two sockets, each with its initial sequence number, and no more.
#[tactic(auto, unfolding(book_sessions::specs::GivenLines::given_isns_in))]
fn read_isns(words: &mut LineWords) -> Result<GivenIsns, LineKind>
    ensures { result ≡ given_isns_in words.old }
{
    let one = read_socket_words(words)?;
    let one_isn = words.long()?;
    let other = read_other(one, words)?;
    let other_isn = words.long()?;
    words.nothing()?;
    Ok(GivenIsns {
        one,
        one_isn,
        other,
        other_isn,
    })
}

fn isns_in(mut line: Saying) -> Result<GivenIsns, TextFault>
    ensures { result ≡ at_number line.entry.number (given_isns_in line.entry.words) }
{
    let number = line.number;
    match read_isns(&mut line.words) {
        Ok(isns) => Ok(isns),
        Err(kind) => Err(TextFault::Line(number, kind)),
    }
}

/// What the lines that are left give.
fn read_lines(alloc: Global, mut lines: SayingLines) -> Result<Vec<GivenIsns>, TextFault>
    ensures { MatchResult result (λ v. given_from [] (said_by given_isns_in lines.entry) ≡ Ok v.items)
        (λ e. Fails e (given_from [] (said_by given_isns_in lines.entry))) }
{
    let mut given = Vec::new(alloc);
    while let Some(line) = lines.next() {
        let isns = isns_in(line)?;
        given.push(isns)?;
    }
    Ok(given)
}

/// What the lines of a text give: of each line that says something two sockets, each with its initial
/// sequence number. The fault of the text, unless memory ran out.
///
/// Each line that says something is `ADDRESS PORT ISN ADDRESS PORT ISN`: two sockets of one version of
/// IP that differ, with addresses in their usual form, each with its initial sequence number.
pub fn read_given(alloc: Global, text: &[u8]) -> Result<Vec<GivenIsns>, TextFault>
    ensures { MatchResult result (λ v. given_isns_of text.now ≡ Ok v.items) (λ e. Fails e (given_isns_of text.now)) }
{
    let _count = count_lines(text)?;
    match read_lines(alloc, SayingLines::new(text)) {
        Ok(given) => Ok(given),
        Err(fault) => Err(fault),
    }
}
