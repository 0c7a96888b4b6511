//! The top call over the files that the words name and the standard streams.
use crate::opening::Opening;
use crate::waiting::tell_waiting;
use ao_base::{QuietSource, ReadSource, Source, WriteSink};
use book_base::Bytes;
use scope_run::{Asked, Word, run};

/// A source for what the words don't ask for.
fn none(rt: &HostRuntime) -> QuietSource {
    QuietSource::new(Bytes::from_vec(Vec::new(rt.alloc())))
}

/// Over these sources.
fn run_over<K: Source, J: Source, I: Source>(
    rt: &HostRuntime,
    asked: &Asked<'_>,
    keys: &mut K,
    isns: &mut J,
    input: &mut I,
) -> u8 {
    let mut out = WriteSink::new(rt.stdout());
    let mut err = WriteSink::new(rt.stderr());
    run(rt.alloc(), asked, keys, isns, input, &mut out, &mut err)
}

/// Over these files, and the one that `-r` names in place of standard input.
fn run_input<K: Source, J: Source>(
    rt: &HostRuntime,
    word: Word,
    asked: &Asked<'_>,
    keys: &mut K,
    isns: &mut J,
    input: Option<&str>,
) -> u8 {
    match input {
        Some(path) => run_over(
            rt,
            asked,
            keys,
            isns,
            &mut ReadSource::new(Opening::of(rt, path)),
        ),
        None => {
            let _ = tell_waiting(rt, word);
            run_over(rt, asked, keys, isns, &mut ReadSource::new(rt.stdin()))
        }
    }
}

/// Over this key file, and the file of initial sequence numbers that the words name.
fn run_isns<K: Source>(
    rt: &HostRuntime,
    word: Word,
    asked: &Asked<'_>,
    keys: &mut K,
    isns: Option<&str>,
    input: Option<&str>,
) -> u8 {
    match isns {
        Some(path) => {
            let mut isns = ReadSource::new(Opening::of(rt, path));
            run_input(rt, word, asked, keys, &mut isns, input)
        }
        None => run_input(rt, word, asked, keys, &mut none(rt), input),
    }
}

/// The files that the words name, by their paths.
#[derive(Clone, Copy)]
pub(crate) struct Paths<'a> {
    pub(crate) keys: Option<&'a str>,
    pub(crate) isns: Option<&'a str>,
    /// In place of standard input.
    pub(crate) input: Option<&'a str>,
}

/// Over the files at these paths.
pub(crate) fn run_files(rt: &HostRuntime, word: Word, asked: &Asked<'_>, paths: Paths<'_>) -> u8 {
    match paths.keys {
        Some(path) => {
            let mut keys = ReadSource::new(Opening::of(rt, path));
            run_isns(rt, word, asked, &mut keys, paths.isns, paths.input)
        }
        None => run_isns(rt, word, asked, &mut none(rt), paths.isns, paths.input),
    }
}
