//! What words ask of the program, read once.
ghost use Rattle.std.specs.Prelude.{◌≡◌, option_map, true};
ghost use Rattle.book_answer.specs.Commands.{command_of};
ghost use Rattle.ao_run.specs.Gathered.{is_ready};
ghost use Rattle.ao_run.specs.KeyFiles.{key_word, second, third};

use crate::command::{named, reads_keys};
use book_answer::Command;
use book_base::Words;
use std::marker::Model;

/// Words with the command that they name, or none where they are in no command's form.
#[derive(Drop)]
pub struct Asked<'a> {
    words: &'a Words,
    command: Option<Command>,
}

impl<'a> Model for Asked<'a> {
    ghost use Rattle.std.specs.Prelude.{◌≡◌, ℕ, List, true};
    ghost use Rattle.book_answer.specs.Commands.{command_of};
    ghost use Rattle.ao_run.specs.Gathered.{is_ready};

    ghost Value = { List (List ℕ) };

    ghost view = { λ a. a.words.now };

    ghost invariant = { λ a. (a.command ≡ command_of a.words.now) × (is_ready a.command ≡ true) };
}

fn second(words: &Words) -> Option<&[u8]>
    ensures { option_map (λ w. w.now) result ≡ second words.now }
{
    match words.as_slice() {
        [_name, word, ..] => Some(word.as_slice()),
        _ => None,
    }
}

fn third(words: &Words) -> Option<&[u8]>
    ensures { option_map (λ w. w.now) result ≡ third words.now }
{
    match words.as_slice() {
        [_name, _option, word, ..] => Some(word.as_slice()),
        _ => None,
    }
}

impl<'a> Asked<'a> {
    /// Reads the words.
    pub fn read(words: &'a Words) -> Asked<'a>
        ensures { result ≡ words.now }
    {
        Asked {
            words,
            command: named(words),
        }
    }

    /// The command that the words name; None exactly where they are in no command's form. A storm draws
    /// at most 10,000 events.
    pub(crate) fn command(&self) -> Option<Command>
        ensures command { result ≡ command_of self.now }
        ensures ready { is_ready result ≡ true }
    {
        self.command
    }

    /// The word that names the key file; None exactly where the words ask for none, or are in no form
    /// of a command.
    pub fn key_file(&self) -> Option<&[u8]>
        ensures { option_map (λ w. w.now) result ≡ key_word self.now }
    {
        match self.command {
            Some(Command::CheckPcap) => third(self.words),
            Some(command) => {
                if reads_keys(command) {
                    second(self.words)
                } else {
                    None
                }
            }
            None => None,
        }
    }
}
