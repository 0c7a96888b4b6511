//! The words after the program's word, read from the left.
ghost use Rattle.std.specs.Prelude.{◌≡◌, IfOk, OnOk, map, option_map, string_bytes};
ghost use Rattle.scope_run.specs.Meanings.{change_now, pairs, reads_now, state_of};
ghost use Rattle.scope_run.specs.WordsReadings.{changed, ended, first_alone, reading, start};

use crate::entries::{Entry, first_given, first_lacking, has};
use crate::step::{Change, Ending, step_by};
use crate::usage::Cause;
use crate::word::Word;
use crate::words_tables::{options_with_draw_of, required_of};
use std::alloc::{AllocError, Global};

/// How far the words are read.
#[derive(Drop)]
pub(crate) struct Reading<'w> {
    entries: Vec<Entry<'w>>,
    waiting: Option<&'w [u8]>,
    only_arguments: bool,
}

impl<'w> Reading<'w> {
    /// Nothing is read yet.
    pub(crate) fn new(alloc: Global) -> Reading<'w>
        ensures { state_of result ≡ start }
    {
        Reading {
            entries: Vec::new(alloc),
            waiting: None,
            only_arguments: false,
        }
    }

    /// What is given.
    pub(crate) fn given(&self) -> &[Entry<'w>]
        ensures { pairs result.now ≡ (state_of self.now).given }
    {
        self.entries.as_slice()
    }

    fn change(&mut self, change: Change<&'w [u8]>) -> Result<(), AllocError>
        ensures { OnOk result (state_of self.new ≡ changed (state_of self.old) (change_now change.entry)) }
    {
        match change {
            Change::Gives(name, text) => {
                self.entries.push(Entry { name, text })?;
                self.waiting = None;
            }
            Change::Waits(name) => self.waiting = Some(name),
            Change::OnlyArguments => self.only_arguments = true,
        }
        Ok(())
    }

    /// What is wrong at the end of the words; None where all is there.
    fn ending(&self, word: Word) -> Option<Ending<&'w [u8]>>
        ensures { reads_now result self.now ≡ ended (state_of self.now).waiting word (state_of self.now).given }
    {
        if let Some(name) = self.waiting {
            return Some(Ending::Refuses(Cause::NoValue, name));
        }
        if let Some(name) = first_alone(word, self.given()) {
            return Some(Ending::Refuses(Cause::WithoutDraw, name));
        }
        match first_lacking(required_of(word), self.given()) {
            Some(name) => Some(Ending::Refuses(Cause::Missing, name)),
            None => None,
        }
    }

    /// Reads the words; None where they give all that the word needs.
    pub(crate) fn read(
        &mut self,
        word: Word,
        words: &'w [String],
    ) -> Result<Option<Ending<&'w [u8]>>, AllocError>
        ensures { IfOk result (λ end.
            reads_now end self.new ≡ reading word (state_of self.old) (map string_bytes words.entry.now)) }
    {
        for text in words {
            let said = step_by(
                word,
                self.given(),
                self.waiting,
                self.only_arguments,
                text.as_bytes(),
            );
            match said {
                Ok(change) => self.change(change)?,
                Err(ending) => return Ok(Some(ending)),
            }
        }
        Ok(self.ending(word))
    }
}

/// The first option that is there only beside `--draw`, where that isn't given.
fn first_alone(word: Word, given: &[Entry<'_>]) -> Option<&'static [u8]>
    ensures { option_map (λ n. n.now) result ≡ first_alone word (pairs given.now) }
{
    if has(b"--draw", given) {
        return None;
    }
    first_given(options_with_draw_of(word), given)
}
