//! What is told on standard error of a run that ended early.
ghost use Rattle.std.specs.Prelude.{◌≡◌, ◌++◌, ◌∷◌, [], OnOk, decimal};
ghost use Rattle.ao_base.specs.Outside.{Side};
ghost use Rattle.book_scope_run.specs.Endings.{argument_text, halt_text, misuse_text, origin_text, wanted_name};
ghost use Rattle.book_lines.specs.Faults.{kind_text};
ghost use Rattle.book_lines.specs.Texts.{spaced};
ghost use Rattle.scope_run.specs.Runs.{Tells};

use ao_base::{Sink, push_decimal, write_all};
use book_lines::LineKind;
use book_scope_run::{Argument, Halt, Misuse, Origin, Wanted};
use command_report::push_key_fault;
use scope_lines::push_fault;
use scope_texts::push_shown_text;
use std::alloc::{AllocError, Global};
use text_lines::{push_newline, push_number, push_text};

fn kind_text(kind: LineKind) -> &'static [u8]
    ensures { result.now ≡ kind_text kind }
{
    match kind {
        LineKind::Word => b"word",
        LineKind::Number => b"number",
        LineKind::Hex => b"hex",
        LineKind::Range => b"range",
        LineKind::Header => b"header",
        LineKind::Shared => b"shared",
    }
}

fn argument_text(name: Argument) -> &'static [u8]
    ensures { result.now ≡ argument_text name }
{
    match name {
        Argument::Lead => b"LEAD",
        Argument::Lag => b"LAG",
        Argument::From => b"FROM",
        Argument::To => b"TO",
        Argument::N => b"N",
    }
}

fn wanted_name(what: Wanted) -> &'static [u8]
    ensures { result.now ≡ wanted_name what }
{
    match what {
        Wanted::LengthOfTime => b"length of time",
        Wanted::Time => b"time",
        Wanted::Laps => b"number of laps from 0 to 255",
        Wanted::SessionNumber => b"number of a session",
        Wanted::PacketNumber => b"number from 1",
    }
}

fn misuse_text(why: Misuse) -> &'static [u8]
    ensures { result.now ≡ misuse_text why }
{
    match why {
        Misuse::LongLead => b"LEAD is more than 253402300799 seconds",
        Misuse::LongLag => b"LAG is more than 253402300799 seconds",
        Misuse::FromAfterTo => b"FROM is after TO",
        Misuse::DrawAndTable => b"--draw goes with none of --json, --every and --all",
        Misuse::RetireAndMore => b"--retire goes with none of --draw, --json, --every and --all",
    }
}

fn origin_text(from: Origin) -> &'static [u8]
    ensures { result.now ≡ origin_text from }
{
    match from {
        Origin::KeyFile => b"keys",
        Origin::IsnFile => b"isn",
        Origin::Input => b"input",
    }
}

fn push_misused(line: &mut Vec<u8>, why: Misuse) -> Result<(), AllocError>
    ensures { OnOk result (line.new.items ≡ line.old.items ++ halt_text [] (Halt.Misused why)) }
{
    line.extend_from_slice(b"usage: ")?;
    line.extend_from_slice(misuse_text(why))?;
    push_newline(line)
}

fn push_is_no(line: &mut Vec<u8>, name: Argument, what: Wanted) -> Result<(), AllocError>
    ensures { OnOk result (line.new.items ≡ line.old.items ++ halt_text [] (Halt.IsNo name what)) }
{
    line.extend_from_slice(b"usage: ")?;
    line.extend_from_slice(argument_text(name))?;
    line.extend_from_slice(b" is no ")?;
    line.extend_from_slice(wanted_name(what))?;
    push_newline(line)
}

fn push_no_such_key(line: &mut Vec<u8>, word: &[u8]) -> Result<(), AllocError>
    ensures { OnOk result (line.new.items ≡ line.old.items ++ halt_text word.now Halt.NoSuchKey) }
{
    line.extend_from_slice(b"no row has the AdminKeyName or KeyID ")?;
    push_shown_text(line, word)?;
    push_newline(line)
}

fn push_count(line: &mut Vec<u8>, text: &[u8], count: u64) -> Result<(), AllocError>
    ensures { OnOk result (line.new.items ≡ line.old.items ++ (text.now ++ decimal count)) }
{
    line.extend_from_slice(text)?;
    push_decimal(line, count)
}

fn push_no_session(line: &mut Vec<u8>, number: u64, many: u64) -> Result<(), AllocError>
    ensures { OnOk result (line.new.items ≡ line.old.items ++ halt_text [] (Halt.NoSession number many)) }
{
    push_count(line, b"no session ", number)?;
    push_count(line, b": the capture has ", many)?;
    push_newline(line)
}

fn push_place(line: &mut Vec<u8>, number: u32, kind: LineKind) -> Result<(), AllocError>
    ensures { OnOk result (line.new.items ≡ line.old.items ++ spaced (decimal number ∷ kind_text kind ∷ [])) }
{
    push_number(line, u64::from(number))?;
    push_text(line, kind_text(kind))
}

fn push_isn_line(line: &mut Vec<u8>, number: u32, kind: LineKind) -> Result<(), AllocError>
    ensures { OnOk result (line.new.items ≡ line.old.items ++ halt_text [] (Halt.IsnLine number kind)) }
{
    line.extend_from_slice(b"isn: line")?;
    push_place(line, number, kind)?;
    push_newline(line)
}

fn push_input_line(line: &mut Vec<u8>, number: u32, kind: LineKind) -> Result<(), AllocError>
    ensures { OnOk result (line.new.items ≡ line.old.items ++ halt_text [] (Halt.InputLine number kind)) }
{
    line.extend_from_slice(b"input: line")?;
    push_place(line, number, kind)?;
    push_newline(line)
}

fn push_of_origin(line: &mut Vec<u8>, from: Origin, what: &[u8]) -> Result<(), AllocError>
    ensures { OnOk result (line.new.items ≡ line.old.items ++ (origin_text from ++ what.now)) }
{
    line.extend_from_slice(origin_text(from))?;
    line.extend_from_slice(what)
}

/// Puts why a run ended early behind `line`; `word` is that by which `--retire` names keys.
fn push_halt(line: &mut Vec<u8>, word: &[u8], halt: Halt) -> Result<(), AllocError>
    ensures { OnOk result (line.new.items ≡ line.old.items ++ halt_text word.now halt) }
{
    match halt {
        Halt::Misused(why) => push_misused(line, why),
        Halt::IsNo(name, what) => push_is_no(line, name, what),
        Halt::NoSuchKey => push_no_such_key(line, word),
        Halt::NoSession(number, many) => push_no_session(line, number, many),
        Halt::NoNode => line.extend_from_slice(b"no node: the key file names none\n"),
        Halt::NoConnection => line.extend_from_slice(b"no connection: the input names none\n"),
        Halt::Keys(fault) => push_key_fault(line, fault),
        Halt::IsnLine(number, kind) => push_isn_line(line, number, kind),
        Halt::TooManyIsns => line.extend_from_slice(b"isn: too many lines\n"),
        Halt::Broken(fault) => push_fault(line, fault),
        Halt::InputLine(number, kind) => push_input_line(line, number, kind),
        Halt::TooManyLines => line.extend_from_slice(b"input: too many lines\n"),
        Halt::TooManyEvents => line.extend_from_slice(b"input: too many events\n"),
        Halt::TooLong(from) => push_of_origin(line, from, b": too long\n"),
        Halt::Read(from) => push_of_origin(line, from, b": read fault\n"),
        Halt::Write => line.extend_from_slice(b"write fault\n"),
        Halt::Memory => line.extend_from_slice(b"memory\n"),
    }
}

/// Tells why a run ended early, as far as `err` takes it; where there is no memory for the text, that.
pub(crate) fn tell<E: Sink>(alloc: Global, word: &[u8], end: Result<bool, Halt>, err: &mut E)
    ensures { Tells word.now end (E.side err.old) (E.side err.new) }
{
    let Err(halt) = end else {
        return;
    };
    let mut line = Vec::new(alloc);
    let _ = match push_halt(&mut line, word, halt) {
        Ok(()) => write_all(err, line.as_slice()),
        Err(_) => write_all(err, b"memory\n"),
    };
}
