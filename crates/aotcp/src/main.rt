//! `aotcp`: hands the words after the program's name, the key file and the standard streams to the
//! top call, and ends with its status.
#![tactic(auto)]

mod own_text;

use ao_base::{Failed, QuietSource, ReadSource, Source, WriteSink, write_all};
use ao_run::Asked;
use book_base::{Bytes, Words};
use own_text::OwnText;
use std::fs::File;
use std::io::{ErrorKind, IsTerminal, Read};
use std::process::ExitCode;
use std::{env, io, str};

/// A file that can't be opened: each read of it fails.
#[derive(Drop)]
struct Unopened;

impl Read for Unopened {
    fn read(&mut self, _buf: &mut [u8]) -> io::Result<usize> {
        Err(io::Error::from(ErrorKind::NotFound))
    }
}

/// The words after the program's name; an error where one isn't UTF-8.
fn words(rt: &HostRuntime) -> io::Result<Words> {
    let mut words = Vec::new(rt.alloc());
    for word in env::args(rt)?.skip(1) {
        words.push(Bytes::from_vec(word.into_bytes()))?;
    }
    Ok(Words::from_vec(words))
}

/// Writes a text of the program's own.
fn print(rt: &HostRuntime, text: &[u8]) -> u8 {
    match write_all(&mut WriteSink::new(rt.stdout()), text) {
        Ok(()) => 0,
        Err(Failed) => {
            let _ = write_all(&mut WriteSink::new(rt.stderr()), b"write fault\n");
            6
        }
    }
}

/// The system's reason why a file isn't opened.
fn reason(error: &io::Error) -> &'static [u8] {
    match error.raw_os_error() {
        Some(2) => b"no such file or directory",
        Some(13) => b"permission denied",
        Some(20) => b"not a directory",
        Some(36) => b"file name too long",
        Some(40) => b"too many symbolic links",
        _ => b"it can't be opened",
    }
}

/// Tells which file isn't opened, and why.
fn tell_unopened(rt: &HostRuntime, path: &[u8], error: &io::Error) -> Result<(), Failed> {
    let mut err = WriteSink::new(rt.stderr());
    write_all(&mut err, path)?;
    write_all(&mut err, b": ")?;
    write_all(&mut err, reason(error))?;
    write_all(&mut err, b"\n")
}

fn open(rt: &HostRuntime, path: &[u8]) -> io::Result<File> {
    match str::from_utf8(path) {
        Ok(path) => File::open(rt, path),
        Err(_) => Err(io::Error::from(ErrorKind::NotFound)),
    }
}

/// Tells on standard error that `check` waits for its input, where that is a terminal.
fn tell_waiting(rt: &HostRuntime, words: &Words) -> Result<(), Failed> {
    let text: &[u8] = match words.as_slice() {
        [word, pcap, _]
            if word.as_slice() == b"check".as_slice() && pcap.as_slice() == b"--pcap".as_slice() =>
            { b"waiting for a pcap file on standard input: < FILE, or tcpdump -w - |\n" }
        [word, _] if word.as_slice() == b"check".as_slice() => {
            b"waiting for stored segments on standard input, each line TIME DATAGRAM; Ctrl-D ends them\n"
        }
        _ => return Ok(()),
    };
    if rt.stdin().is_terminal() {
        write_all(&mut WriteSink::new(rt.stderr()), text)
    } else {
        Ok(())
    }
}

/// The top call over this key file and the standard streams.
fn run_over<K: Source>(rt: &HostRuntime, asked: &Asked<'_>, keys: &mut K) -> u8 {
    let mut input = ReadSource::new(rt.stdin());
    let mut out = WriteSink::new(rt.stdout());
    let mut err = WriteSink::new(rt.stderr());
    asked.run(rt.alloc(), keys, &mut input, &mut out, &mut err)
}

/// The top call; words that ask for no key file have an empty one.
fn run_words(rt: &HostRuntime, words: &Words) -> u8 {
    let asked = Asked::read(words);
    match asked.key_file() {
        None => {
            let none = Bytes::from_vec(Vec::new(rt.alloc()));
            run_over(rt, &asked, &mut QuietSource::new(none))
        }
        Some(path) => match open(rt, path) {
            Ok(file) => {
                let _ = tell_waiting(rt, words);
                run_over(rt, &asked, &mut ReadSource::new(file))
            }
            Err(error) => {
                let _ = tell_unopened(rt, path, &error);
                run_over(rt, &asked, &mut ReadSource::new(Unopened))
            }
        },
    }
}

fn answer(rt: &HostRuntime, words: &Words) -> u8 {
    match OwnText::asked(words) {
        Some(text) => print(rt, text.bytes()),
        None => run_words(rt, words),
    }
}

fn main(rt: HostRuntime) -> ExitCode {
    let status = match words(&rt) {
        Ok(words) => answer(&rt, &words),
        Err(error) => {
            if error.kind() == io::ErrorKind::OutOfMemory {
                let _ = write_all(&mut WriteSink::new(rt.stderr()), b"memory\n");
                7
            } else {
                run_words(&rt, &Words::from_vec(Vec::new(rt.alloc())))
            }
        }
    };
    ExitCode::from(status)
}
