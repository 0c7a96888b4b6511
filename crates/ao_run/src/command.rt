//! The command that the words name.
ghost use Rattle.std.specs.Prelude.{◌≡◌, true};
ghost use Rattle.book_keys.specs.Times.{time_of};
ghost use Rattle.book_answer.specs.Commands.{alone_of, command_of, keys_of, lint_command, pcap_of, reads_keys};
ghost use Rattle.book_answer.specs.Commands.{storm_of, three_of, decimal_up_to, with_keys_of};
ghost use Rattle.ao_run.specs.Gathered.{is_ready};

use ao_base::read_decimal;
use book_answer::Command;
use book_base::Words;
use book_cmd_link::Plan;
use key_table::{LATEST, read_time};

/// The most events that a storm draws.
const MOST_DRAWN: u64 = 10_000;

/// A time that is written as in a key file, whatever the bytes.
#[tactic(auto, using(crate::proofs::CommandLaws::no_time))]
fn time_in(word: &[u8]) -> Option<u64>
    ensures { result ≡ time_of word.now }
{
    match std::str::from_utf8(word) {
        Ok(text) => read_time(text),
        Err(_) => None,
    }
}

fn up_to(most: u64, word: &[u8]) -> Option<u64>
    ensures { result ≡ decimal_up_to most word.now }
{
    match read_decimal(word) {
        Some(n) => { if n <= most { Some(n) } else { None } }
        None => None,
    }
}

fn alone(name: &[u8]) -> Option<Command>
    ensures { result ≡ alone_of name.now }
{
    if name == b"link".as_slice() {
        Some(Command::Link)
    } else if name == b"show".as_slice() {
        Some(Command::Show)
    } else if name == b"vectors".as_slice() {
        Some(Command::Vectors)
    } else {
        None
    }
}

fn with_keys(name: &[u8]) -> Option<Command>
    ensures { result ≡ with_keys_of name.now }
{
    if name == b"link".as_slice() {
        Some(Command::LinkKeys)
    } else if name == b"check".as_slice() {
        Some(Command::Check)
    } else if name == b"bgp".as_slice() {
        Some(Command::Bgp)
    } else if name == b"timed".as_slice() {
        Some(Command::Timed)
    } else if name == b"node".as_slice() {
        Some(Command::Node)
    } else {
        None
    }
}

fn keys(time: &[u8]) -> Option<Command>
    ensures { result ≡ keys_of time.now }
{
    match time_in(time) {
        Some(time) => Some(Command::Keys(time)),
        None => None,
    }
}

fn storm(seed: &[u8], count: &[u8]) -> Option<Command>
    ensures { result ≡ storm_of seed.now count.now }
{
    let seed = read_decimal(seed)?;
    let count = up_to(MOST_DRAWN, count)?;
    Some(Command::Storm(seed, count as u32))
}

fn of_pcap(option: &[u8]) -> Option<Command>
    ensures { result ≡ pcap_of option.now }
{
    if option == b"--pcap".as_slice() {
        Some(Command::CheckPcap)
    } else {
        None
    }
}

fn three(name: &[u8], second: &[u8], third: &[u8]) -> Option<Command>
    ensures { result ≡ three_of name.now second.now third.now }
{
    if name == b"keys".as_slice() {
        keys(third)
    } else if name == b"storm".as_slice() {
        storm(second, third)
    } else if name == b"check".as_slice() {
        of_pcap(second)
    } else {
        None
    }
}

fn lint(lead: &[u8], lag: &[u8], from: &[u8], to: &[u8]) -> Option<Command>
    ensures { result ≡ lint_command lead.now lag.now from.now to.now }
{
    let lead = up_to(LATEST, lead)?;
    let lag = up_to(LATEST, lag)?;
    let from = time_in(from)?;
    let to = time_in(to)?;
    if from <= to {
        Some(Command::Lint(Plan {
            lead,
            lag,
            from,
            to,
        }))
    } else {
        None
    }
}

/// The command that the words name.
#[tactic(auto, unfolding(book_answer::specs::Commands::command_of))]
fn command_of(words: &Words) -> Option<Command>
    ensures { result ≡ command_of words.now }
{
    match words.as_slice() {
        [name] => alone(name.as_slice()),
        [name, _keys] => with_keys(name.as_slice()),
        [name, second, third] => three(name.as_slice(), second.as_slice(), third.as_slice()),
        [name, _keys, lead, lag, from, to] if name.as_slice() == b"lint".as_slice() => lint(
            lead.as_slice(),
            lag.as_slice(),
            from.as_slice(),
            to.as_slice(),
        ),
        _ => None,
    }
}

/// The command that the words name, which draws at most 10,000 events; None exactly where they are in
/// no command's form.
pub(crate) fn named(words: &Words) -> Option<Command>
    ensures command { result ≡ command_of words.now }
    ensures ready { is_ready result ≡ true }
{
    command_of(words)
}

/// Whether the command reads the key file.
pub(crate) fn reads_keys(command: Command) -> bool
    ensures { result ≡ reads_keys command }
{
    !matches!(
        command,
        Command::Link | Command::Show | Command::Vectors | Command::Storm(..)
    )
}
