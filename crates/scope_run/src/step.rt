//! What one word says, after those before it.
ghost use Rattle.std.specs.Prelude.{◌≡◌, option_map};
ghost use Rattle.scope_run.specs.Meanings.{pairs, step_now};
ghost use Rattle.scope_run.specs.Steps.{argument_step, flag_step, known_step, option_step};
ghost use Rattle.scope_run.specs.Steps.{plain_step, step_by, value_step, valued_step};

use crate::cut::{asks_help, head_of, is_dashed, value_of};
use crate::entries::{Entry, first_lacking, has};
use crate::usage::Cause;
use crate::word::Word;
use crate::words_tables::{arguments_of, flags_of, is_among, valued_options_of};

/// What a word changes.
#[derive(Clone, Copy)]
pub(crate) enum Change<T> {
    /// A text is given by this name.
    Gives(T, T),
    /// The option of this name waits for its value.
    Waits(T),
    /// Every word after this is an argument.
    OnlyArguments,
}

/// What ends the reading of words before their end.
#[derive(Clone, Copy)]
pub(crate) enum Ending<T> {
    /// Help is asked for.
    Help,
    /// The words are refused for this text.
    Refuses(Cause, T),
}

/// What a word says.
pub(crate) type Said<'w> = Result<Change<&'w [u8]>, Ending<&'w [u8]>>;

fn argument_step<'w>(word: Word, given: &[Entry<'w>], text: &'w [u8]) -> Said<'w>
    ensures { step_now result ≡ argument_step word (pairs given.now) text.entry.now }
{
    match first_lacking(arguments_of(word), given) {
        Some(name) => Ok(Change::Gives(name, text)),
        None => Err(Ending::Refuses(Cause::TooMany, text)),
    }
}

fn valued_step<'w>(name: &'w [u8], value: Option<&'w [u8]>) -> Said<'w>
    ensures { step_now result ≡ valued_step name.entry.now (option_map (λ v. v.now) value.entry) }
{
    match value {
        Some(value) => Ok(Change::Gives(name, value)),
        None => Ok(Change::Waits(name)),
    }
}

fn flag_step<'w>(name: &'w [u8], value: Option<&'w [u8]>) -> Said<'w>
    ensures { step_now result ≡ flag_step name.entry.now (option_map (λ v. v.now) value.entry) }
{
    match value {
        Some(_) => Err(Ending::Refuses(Cause::ValueOfFlag, name)),
        None => Ok(Change::Gives(name, b"")),
    }
}

fn known_step<'w>(
    word: Word,
    given: &[Entry<'w>],
    name: &'w [u8],
    value: Option<&'w [u8]>,
) -> Said<'w>
    ensures { step_now result ≡ known_step word (pairs given.now) name.entry.now (option_map (λ v. v.now) value.entry) }
{
    if has(name, given) {
        Err(Ending::Refuses(Cause::Twice, name))
    } else if is_among(name, valued_options_of(word)) {
        valued_step(name, value)
    } else {
        flag_step(name, value)
    }
}

fn option_step<'w>(word: Word, given: &[Entry<'w>], text: &'w [u8]) -> Said<'w>
    ensures { step_now result ≡ option_step word (pairs given.now) text.entry.now }
{
    let name = head_of(text);
    if is_among(name, valued_options_of(word)) || is_among(name, flags_of(word)) {
        known_step(word, given, name, value_of(text))
    } else {
        Err(Ending::Refuses(Cause::UnknownOption, text))
    }
}

fn plain_step<'w>(word: Word, given: &[Entry<'w>], only_arguments: bool, text: &'w [u8]) -> Said<'w>
    ensures { step_now result ≡ plain_step word (pairs given.now) only_arguments text.entry.now }
{
    if only_arguments {
        argument_step(word, given, text)
    } else if text == b"--".as_slice() {
        Ok(Change::OnlyArguments)
    } else if asks_help(text) {
        Err(Ending::Help)
    } else if is_dashed(text) {
        option_step(word, given, text)
    } else {
        argument_step(word, given, text)
    }
}

fn value_step<'w>(name: &'w [u8], text: &'w [u8]) -> Said<'w>
    ensures { step_now result ≡ value_step name.entry.now text.entry.now }
{
    if is_dashed(text) {
        Err(Ending::Refuses(Cause::NoValue, name))
    } else {
        Ok(Change::Gives(name, text))
    }
}

/// What a word says after those before it: what they give, the option that waits for its value, and whether all that
/// follows are arguments.
pub(crate) fn step_by<'w>(
    word: Word,
    given: &[Entry<'w>],
    waiting: Option<&'w [u8]>,
    only_arguments: bool,
    text: &'w [u8],
) -> Said<'w>
    ensures { step_now result
        ≡ step_by word (pairs given.now) (option_map (λ w. w.now) waiting.entry) only_arguments text.entry.now }
{
    match waiting {
        Some(name) => value_step(name, text),
        None => plain_step(word, given, only_arguments, text),
    }
}
