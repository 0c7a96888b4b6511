//! A whole command line.
ghost use Rattle.std.specs.Prelude.{◌≡◌, IfOk, map, string_bytes};
ghost use Rattle.scope_run.specs.WordsAnswers.{Answers};
ghost use Rattle.scope_run.specs.Lines.{command_line_of, helped, meant_by, unknown_first};
ghost use Rattle.scope_run.specs.Meanings.{ending_now};
ghost use Rattle.scope_run.specs.WordsReadings.{reading, start};

use crate::asked::Asked;
use crate::cut::{asks_help, is_dashed};
use crate::request::{asked_of, files_of};
use crate::step::Ending;
use crate::usage::{Cause, Usage};
use crate::word::{Page, Word, word_named};
use crate::words_reading::Reading;
use std::alloc::{AllocError, Global};

/// The files that the words name.
#[derive(Clone, Copy)]
pub struct Files<'w> {
    pub keys: Option<&'w [u8]>,
    pub isns: Option<&'w [u8]>,
    /// In place of standard input.
    pub input: Option<&'w [u8]>,
}

/// What a word is asked for, and the files that are named.
#[derive(Clone, Copy)]
pub struct Request<'w> {
    pub word: Word,
    pub asked: Asked<'w>,
    pub files: Files<'w>,
}

/// What a command line says.
#[derive(Clone, Copy)]
pub enum CommandLine<'w> {
    /// There is no word.
    Nothing,
    Help(Page),
    Version,
    Refused(Usage<'w>),
    Asks(Request<'w>),
}

/// A first word that is none of the program's.
fn unknown_first<'w>(text: &'w [u8]) -> CommandLine<'w>
    ensures { Answers result (unknown_first text.entry.now) }
{
    let cause = if is_dashed(text) {
        Cause::UnknownOption
    } else {
        Cause::UnknownWord
    };
    CommandLine::Refused(Usage {
        page: Page::Program,
        cause,
        text,
    })
}

/// What the words after `help` say.
fn helped<'w>(words: &'w [String]) -> CommandLine<'w>
    ensures { Answers result (helped (map string_bytes words.entry.now)) }
{
    match words {
        [] => CommandLine::Help(Page::Program),
        [name] => match word_named(name.as_bytes()) {
            Some(word) => CommandLine::Help(Page::Of(word)),
            None => unknown_first(name.as_bytes()),
        },
        [_, other, ..] => CommandLine::Refused(Usage {
            page: Page::Program,
            cause: Cause::TooMany,
            text: other.as_bytes(),
        }),
    }
}

/// How a reading of words ended before their end.
fn ended<'w>(word: Word, ending: Ending<&'w [u8]>) -> CommandLine<'w>
    ensures { Answers result (meant_by word (Err (ending_now ending.entry))) }
{
    match ending {
        Ending::Help => CommandLine::Help(Page::Of(word)),
        Ending::Refuses(cause, text) => CommandLine::Refused(Usage {
            page: Page::Of(word),
            cause,
            text,
        }),
    }
}

/// What the words after a word say.
fn of_word<'w>(
    alloc: Global,
    word: Word,
    words: &'w [String],
) -> Result<CommandLine<'w>, AllocError>
    ensures { IfOk result (λ line.
        Answers line (meant_by word (reading word start (map string_bytes words.entry.now)))) }
{
    let mut reading = Reading::new(alloc);
    let line = match reading.read(word, words)? {
        Some(ending) => ended(word, ending),
        None => CommandLine::Asks(Request {
            word,
            asked: asked_of(word, reading.given()),
            files: files_of(reading.given()),
        }),
    };
    Ok(line)
}

/// What the words of a command line say, without the program's name.
///
/// # Errors
///
/// Memory ran out.
pub fn parse<'w>(alloc: Global, words: &'w [String]) -> Result<CommandLine<'w>, AllocError>
    ensures { IfOk result (λ line. Answers line (command_line_of (map string_bytes words.entry.now))) }
{
    let [first, rest @ ..] = words else {
        return Ok(CommandLine::Nothing);
    };
    let text = first.as_bytes();
    if asks_help(text) {
        return Ok(CommandLine::Help(Page::Program));
    }
    if text == b"-V".as_slice() || text == b"--version".as_slice() {
        return Ok(CommandLine::Version);
    }
    if text == b"help".as_slice() {
        return Ok(helped(rest));
    }
    match word_named(text) {
        Some(word) => of_word(alloc, word, rest),
        None => Ok(unknown_first(text)),
    }
}
