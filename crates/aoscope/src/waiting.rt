//! What is told at a terminal, where a word waits for its input.
use ao_base::{Failed, WriteSink, write_all};
use scope_run::Word;
use std::io::IsTerminal;

/// What the word reads from standard input, and how it is given.
fn wanted(word: Word) -> Option<&'static [u8]> {
    match word {
        Word::Lines | Word::Check | Word::Sessions | Word::Why => {
            Some(b"waiting for a capture on standard input: < FILE, or tcpdump -w - |\n")
        }
        Word::Plan => Some(
            b"waiting for connections on standard input, each line ADDRESS PORT ADDRESS PORT; Ctrl-D ends them\n",
        ),
        Word::Draw | Word::Echo => Some(
            b"waiting for a link file on standard input; Ctrl-D ends it\n",
        ),
        Word::Keys => None,
    }
}

/// Tells on standard error what the word waits for, where standard input is a terminal.
pub(crate) fn tell_waiting(rt: &HostRuntime, word: Word) -> Result<(), Failed> {
    if !rt.stdin().is_terminal() {
        return Ok(());
    }
    match wanted(word) {
        Some(text) => write_all(&mut WriteSink::new(rt.stderr()), text),
        None => Ok(()),
    }
}
