//! `aoscope`: hands the standard streams to what the words ask for, and ends with its status.
#![tactic(auto)]

mod opening;
mod running;
mod waiting;

use ao_base::{Failed, WriteSink, write_all};
use running::{Paths, run_files};
use scope_run::{CommandLine, Files, Page, Request, Usage, help_page, parse, push_usage};
use std::process::ExitCode;
use std::{env, io, str};

/// What `--version` prints.
const VERSION: &[u8] = b"aoscope 0.2.0\n";

/// The words of the command line, without the program's name; an error where one isn't UTF-8.
fn words(rt: &HostRuntime) -> io::Result<Vec<String>> {
    let mut words = Vec::new(rt.alloc());
    for word in env::args(rt)?.skip(1) {
        words.push(word)?;
    }
    Ok(words)
}

/// Tells a text on standard error, as far as it takes it, and answers the status.
fn tell(rt: &HostRuntime, text: &[u8], status: u8) -> u8 {
    let _ = write_all(&mut WriteSink::new(rt.stderr()), text);
    status
}

/// Tells that memory ran out.
fn out_of_memory(rt: &HostRuntime) -> u8 {
    tell(rt, b"memory\n", 7)
}

/// Tells that a word isn't UTF-8.
fn not_utf8(rt: &HostRuntime) -> u8 {
    tell(rt, b"usage: a word is not UTF-8\n", 2)
}

/// Writes a text of the program's own.
fn print(rt: &HostRuntime, text: &[u8]) -> u8 {
    match write_all(&mut WriteSink::new(rt.stdout()), text) {
        Ok(()) => 0,
        Err(Failed) => tell(rt, b"write fault\n", 6),
    }
}

/// Tells why the words are refused.
fn refuse(rt: &HostRuntime, usage: &Usage<'_>) -> u8 {
    let mut text = Vec::new(rt.alloc());
    match push_usage(&mut text, usage) {
        Ok(()) => tell(rt, text.as_slice(), 2),
        Err(_) => out_of_memory(rt),
    }
}

/// The path that these bytes of a word write; an error where they aren't UTF-8.
fn path_of(bytes: Option<&[u8]>) -> Result<Option<&str>, str::Utf8Error> {
    match bytes {
        Some(bytes) => Ok(Some(str::from_utf8(bytes)?)),
        None => Ok(None),
    }
}

/// The paths of the files that the words name.
fn paths<'w>(files: Files<'w>) -> Result<Paths<'w>, str::Utf8Error> {
    Ok(Paths {
        keys: path_of(files.keys)?,
        isns: path_of(files.isns)?,
        input: path_of(files.input)?,
    })
}

/// What a word is asked for.
fn run(rt: &HostRuntime, request: &Request<'_>) -> u8 {
    match paths(request.files) {
        Ok(paths) => run_files(rt, request.word, &request.asked, paths),
        Err(_) => not_utf8(rt),
    }
}

fn answer(rt: &HostRuntime, words: &[String]) -> u8 {
    match parse(rt.alloc(), words) {
        Ok(CommandLine::Nothing) => tell(rt, help_page(Page::Program).as_bytes(), 2),
        Ok(CommandLine::Help(page)) => print(rt, help_page(page).as_bytes()),
        Ok(CommandLine::Version) => print(rt, VERSION),
        Ok(CommandLine::Refused(usage)) => refuse(rt, &usage),
        Ok(CommandLine::Asks(request)) => run(rt, &request),
        Err(_) => out_of_memory(rt),
    }
}

fn main(rt: HostRuntime) -> ExitCode {
    let status = match words(&rt) {
        Ok(words) => answer(&rt, words.as_slice()),
        Err(error) => {
            if error.kind() == io::ErrorKind::OutOfMemory {
                out_of_memory(&rt)
            } else {
                not_utf8(&rt)
            }
        }
    };
    ExitCode::from(status)
}
