//! Lines of a source, one after another.
ghost use Rattle.std.specs.Prelude.{◌≡◌, ℕ, ◌+◌, ◌≤◌, true, false, List, [], length, IfOk, IsSome, Some, None};
ghost use Rattle.ao_base.specs.Outside.{Side};
ghost use Rattle.ao_base.specs.Reads.{Reading, Advances, IsQuiet, IsLineOrEnd};

use crate::buffer::Buffer;
use crate::lines::past_line;
use crate::outside::Source;
use crate::search::{Found, find_line};
use std::alloc::{AllocError, Global};
use std::marker::Model;

/// What a call of `LineReader::next` answers.
#[derive(Clone, Copy, Debug, PartialEq, Eq)]
pub enum LineStep {
    /// There is a next line, and the reader shows it.
    Line,
    /// The source is at its end, and all its lines were shown.
    End,
    /// A read failed.
    Fault,
    /// The source gave more bytes than are allowed.
    TooLong,
    /// The next line has more bytes than are allowed.
    LongLine,
}

/// How many bytes are kept besides the longest line.
const SPARE: usize = 65_536;

/// A reader of the lines of a source, which keeps one line and at most 65,536 bytes more.
#[derive(Debug, Drop)]
pub struct LineReader {
    buffer: Buffer,
    longest: u32,
    most: u64,
    // how many bytes were taken and aren't kept
    handed: u64,
    shown: bool,
    // the line that was shown last has no newline
    lacks_newline: bool,
    over: bool,
}

impl Model for LineReader {
    ghost use Rattle.std.specs.Prelude.{◌≡◌, ◌+◌, ◌≤◌, cond, Some, None, length};
    ghost use Rattle.ao_base.specs.Reads.{Reading};

    ghost Value = { Reading };

    ghost view = { λ r. record {
      longest = r.longest;
      most = r.most;
      kept = r.buffer.kept;
      taken = r.handed + length r.buffer.kept;
      lacks_newline = r.lacks_newline;
      over = r.over;
      line = cond r.shown (Some r.buffer.piece) None;
    } };

    ghost invariant = { λ r. (r.handed ≤ r.most) × (r.buffer.size ≡ r.longest + 65536) };
}

impl LineReader {
    /// A reader of lines of at most `longest` bytes, without their newline, of a source of at most
    /// `most` bytes. It takes all its memory here.
    pub fn new(alloc: Global, longest: u32, most: u64) -> Result<LineReader, AllocError>
        ensures { IfOk result
            (λ r. r
            ≡ record {
              longest = longest;
              most = most;
              kept = [];
              taken = 0;
              lacks_newline = false;
              over = false;
              line = None;
            }) }
    {
        let buffer = Buffer::new(alloc, longest as usize + SPARE)?;
        Ok(LineReader {
            buffer,
            longest,
            most,
            handed: 0,
            shown: false,
            lacks_newline: false,
            over: false,
        })
    }

    /// Goes to the next line of the source. No call before may have answered anything but Line.
    ///
    /// The content is what the reader keeps, and then what the source has left. Line: the first line
    /// of the content is shown, and the content afterwards is what follows it and its newline; a line
    /// without a newline is shown only at the source's end, and `lacks_newline` tells it. So up to such a
    /// line the lines shown so far are those in front of the bytes given so far, whatever the source
    /// tells. End comes only at the source's end, with all lines shown; Fault only where the source's
    /// count of faults rose; TooLong only where the source gave more than `most` bytes; LongLine only
    /// where the next line has more than `longest`. Where none of this is so, the answer is Line or End.
    /// No more than `longest` and 65,536 bytes are kept at any time.
    pub fn next<S: Source>(&mut self, src: &mut S) -> LineStep
        requires { self.old.over ≡ false }
        ensures advances { (given : List ℕ) × Advances self.old self.new (S.side src.old) (S.side src.new) given
            result }
        ensures quiet { (left : List ℕ) → IsQuiet self.old (S.side src.old) (S.side src.new) left → IsLineOrEnd result }
    {
        self.advance(src)
    }

    fn advance<S: Source>(&mut self, src: &mut S) -> LineStep
        requires { self.old.over ≡ false }
        ensures { (given : List ℕ) × Advances self.old self.new (S.side src.old) (S.side src.new) given result }
    {
        let allowed = self.most - self.handed;
        match find_line(&mut self.buffer, src, self.longest as usize, allowed) {
            Found::Line(len) => {
                let past = past_line(self.buffer.kept(), len);
                self.buffer.pass(0, len, past);
                self.handed += past as u64;
                self.shown = true;
                self.lacks_newline = past == len;
                LineStep::Line
            }
            Found::End => self.stop(LineStep::End),
            Found::Fault => self.stop(LineStep::Fault),
            Found::TooLong => self.stop(LineStep::TooLong),
            Found::LongLine => self.stop(LineStep::LongLine),
        }
    }

    fn stop(&mut self, step: LineStep) -> LineStep
        ensures step { result ≡ step }
        ensures over { self.new ≡ record self.old { over = true; line = None } }
    {
        self.shown = false;
        self.over = true;
        step
    }

    /// Whether the line that was shown last has no newline; the source was at its end then. False where
    /// no line was shown.
    pub fn lacks_newline(&self) -> bool
        ensures { result ≡ self.now.lacks_newline }
    {
        self.lacks_newline
    }

    /// The line of the last `next`, without its newline. That call answered Line.
    pub fn line(&self) -> &[u8]
        requires { IsSome self.now.line }
        ensures { self.now.line ≡ Some result.now }
    {
        self.buffer.piece()
    }
}
