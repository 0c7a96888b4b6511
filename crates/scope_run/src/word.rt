//! The words that the program knows, and its pages of help.
ghost use Rattle.std.specs.Prelude.{◌≡◌};
ghost use Rattle.scope_run.specs.Tables.{word_named};

/// What a command line is for, by its first word.
#[derive(Clone, Copy)]
pub enum Word {
    Lines,
    Check,
    Sessions,
    Why,
    Keys,
    Plan,
    Draw,
    Echo,
}

/// A page of help: the program's, or that of a word.
#[derive(Clone, Copy)]
pub enum Page {
    Program,
    Of(Word),
}

/// The word that is written so; None where there is no such word.
pub(crate) fn word_named(name: &[u8]) -> Option<Word>
    ensures { result ≡ word_named name.now }
{
    if name == b"lines".as_slice() {
        Some(Word::Lines)
    } else if name == b"check".as_slice() {
        Some(Word::Check)
    } else if name == b"sessions".as_slice() {
        Some(Word::Sessions)
    } else if name == b"why".as_slice() {
        Some(Word::Why)
    } else if name == b"keys".as_slice() {
        Some(Word::Keys)
    } else if name == b"plan".as_slice() {
        Some(Word::Plan)
    } else if name == b"draw".as_slice() {
        Some(Word::Draw)
    } else if name == b"echo".as_slice() {
        Some(Word::Echo)
    } else {
        None
    }
}
