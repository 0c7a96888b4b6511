//! Files that are opened at the first read.
use ao_base::{Failed, WriteSink, write_all};
use std::fs::File;
use std::io;
use std::io::{ErrorKind, Read};

/// The system's reason why a file isn't opened.
fn reason(error: &io::Error) -> &'static [u8] {
    match error.raw_os_error() {
        Some(2) => b"no such file or directory",
        Some(13) => b"permission denied",
        Some(20) => b"not a directory",
        Some(36) => b"file name too long",
        Some(40) => b"too many symbolic links",
        _ => b"it can't be opened",
    }
}

/// Tells on standard error which file isn't opened, and why.
fn tell_unopened(rt: &HostRuntime, path: &str, error: &io::Error) -> Result<(), Failed> {
    let mut err = WriteSink::new(rt.stderr());
    write_all(&mut err, path.as_bytes())?;
    write_all(&mut err, b": ")?;
    write_all(&mut err, reason(error))?;
    write_all(&mut err, b"\n")
}

/// How far the opening of a file is.
#[derive(Drop)]
enum Opened {
    NotYet,
    Open(File),
    Unopened,
}

/// A file that is opened at the first read. Where it isn't opened, which and why is told on standard error then, and
/// each read fails.
#[derive(Drop)]
pub(crate) struct Opening<'a> {
    rt: &'a HostRuntime,
    path: &'a str,
    opened: Opened,
}

impl<'a> Opening<'a> {
    /// The file at this path, not opened yet.
    pub(crate) fn of(rt: &'a HostRuntime, path: &'a str) -> Opening<'a> {
        Opening {
            rt,
            path,
            opened: Opened::NotYet,
        }
    }

    fn open(&mut self) {
        self.opened = match File::open(self.rt, self.path) {
            Ok(file) => Opened::Open(file),
            Err(error) => {
                let _ = tell_unopened(self.rt, self.path, &error);
                Opened::Unopened
            }
        };
    }
}

impl<'a> Read for Opening<'a> {
    fn read(&mut self, buf: &mut [u8]) -> io::Result<usize> {
        if let Opened::NotYet = self.opened {
            self.open();
        }
        match &mut self.opened {
            Opened::Open(file) => file.read(buf),
            _ => Err(io::Error::from(ErrorKind::NotFound)),
        }
    }
}
