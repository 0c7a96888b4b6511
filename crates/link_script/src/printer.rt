//! A script, printed as a link file.
ghost use Rattle.std.specs.Prelude.{◌≡◌, ◌++◌, ◌∷◌, [], OnOk, IfOk, codes, decimal, map, option_map, Ok};
ghost use Rattle.book_base.specs.Hexadecimal.{hex_of};
ghost use Rattle.book_lines.specs.Texts.{end_text, line_text};
ghost use Rattle.book_link.specs.declared.event.Event.TheVariants.{At};
ghost use Rattle.book_cmd_link.specs.LinkFiles.{keys_by, script_of};
ghost use Rattle.link_script.specs.Names.{name_text};
ghost use Rattle.law_scripts.specs.Scripts.{IsScript};
ghost use Rattle.law_scripts.specs.Printed.{event_words, fixing_text, key_lines, lines_text, socket_words, text_of};
ghost use Rattle.law_scripts.specs.Printed.{title_words};

use super::name::Name;
use super::row_texts::push_row;
use book_base::{Bytes, End, Socket};
use book_cmd_link::{Script, SharedKey};
use book_link::{Action, Event, Fixing};
use std::alloc::{AllocError, Global};
use text_lines::{push_bytes, push_end, push_newline, push_number, push_socket, push_text};

/// The words of an event of an end alone.
fn push_alone(out: &mut Vec<u8>, name: Name, end: End) -> Result<(), AllocError>
    ensures { OnOk result (out.new.items ≡ out.old.items ++ (name_text name ++ 32 ∷ end_text end)) }
{
    out.extend_from_slice(name.text())?;
    push_end(out, end)
}

/// The words of an event of an end and a number.
fn push_numbered(out: &mut Vec<u8>, name: Name, end: End, number: u64) -> Result<(), AllocError>
    ensures { OnOk result
        (out.new.items ≡ out.old.items ++ (name_text name ++ 32 ∷ (end_text end ++ 32 ∷ decimal number))) }
{
    push_alone(out, name, end)?;
    push_number(out, number)
}

/// The words of an event that brings bytes to an end.
fn push_load(out: &mut Vec<u8>, name: Name, end: End, bytes: &Bytes) -> Result<(), AllocError>
    ensures { OnOk result
        (out.new.items ≡ out.old.items ++ (name_text name ++ 32 ∷ (end_text end ++ 32 ∷ hex_of bytes.now))) }
{
    push_alone(out, name, end)?;
    push_bytes(out, bytes.as_slice())
}

/// Whether the TCP checksum of an altered copy is kept or set.
fn fixing_word(fixing: Fixing) -> &'static [u8]
    ensures { result.now ≡ fixing_text fixing }
{
    match fixing {
        Fixing::Keep => b"keep",
        Fixing::Fix => b"fix",
    }
}

/// The words of an action at an end.
#[tactic(auto, unfolding(law_scripts::specs::Printed::event_words))]
fn push_action(out: &mut Vec<u8>, end: End, action: &Action) -> Result<(), AllocError>
    ensures { OnOk result (out.new.items ++ 10 ∷ [] ≡ out.old.items ++ line_text (event_words (At end action.now))) }
{
    match action {
        Action::Clock(seconds) => push_numbered(out, Name::Clock, end, *seconds),
        Action::Connect(isn) => push_numbered(out, Name::Open, end, u64::from(*isn)),
        Action::Listen(isn) => push_numbered(out, Name::Listen, end, u64::from(*isn)),
        Action::Start(own, peer) => {
            push_numbered(out, Name::Start, end, u64::from(*own))?;
            push_number(out, u64::from(*peer))
        }
        Action::Give(bytes) => push_load(out, Name::Give, end, bytes),
        Action::Fill(count, byte) => {
            push_numbered(out, Name::Fill, end, u64::from(*count))?;
            push_bytes(out, &[*byte])
        }
        Action::Send => push_alone(out, Name::Send, end),
        Action::Resend => push_alone(out, Name::Resend, end),
        Action::Deliver(segment) => push_numbered(out, Name::Deliver, end, u64::from(*segment)),
        Action::Inject(bytes) => push_load(out, Name::Inject, end, bytes),
        Action::Alter(segment, place, mask, fixing) => {
            push_numbered(out, Name::Alter, end, u64::from(*segment))?;
            push_number(out, u64::from(*place))?;
            push_bytes(out, &[*mask])?;
            push_text(out, fixing_word(*fixing))
        }
        Action::Take(count) => push_numbered(out, Name::Take, end, u64::from(*count)),
        Action::Close => push_alone(out, Name::Close, end),
        Action::Abort => push_alone(out, Name::Abort, end),
        Action::AddRow(row) => {
            push_alone(out, Name::Add, end)?;
            push_row(out, row)
        }
        Action::Withdraw(row) => push_numbered(out, Name::Withdraw, end, u64::from(*row)),
    }
}

/// The words of an event.
#[tactic(auto, unfolding(law_scripts::specs::Printed::event_words))]
fn push_words(out: &mut Vec<u8>, event: &Event) -> Result<(), AllocError>
    ensures { OnOk result (out.new.items ++ 10 ∷ [] ≡ out.old.items ++ line_text (event_words event.now)) }
{
    match event {
        Event::At(end, action) => push_action(out, *end, action),
        Event::Dump(segment) => {
            out.extend_from_slice(Name::Dump.text())?;
            push_number(out, u64::from(*segment))
        }
    }
}

/// The words of an event, and a newline.
fn push_event(out: &mut Vec<u8>, event: &Event) -> Result<(), AllocError>
    ensures { OnOk result (out.new.items ≡ out.old.items ++ line_text (event_words event.now)) }
{
    push_words(out, event)?;
    push_newline(out)
}

#[tactic(auto, unfolding(law_scripts::specs::Printed::title_words))]
fn push_title(out: &mut Vec<u8>) -> Result<(), AllocError>
    ensures { OnOk result (out.new.items ≡ out.old.items ++ line_text title_words) }
{
    out.extend_from_slice(b"aotcp-link 1\n")
}

#[tactic(auto, unfolding(law_scripts::specs::Printed::socket_words))]
fn push_socket_line(
    alloc: Global,
    out: &mut Vec<u8>,
    name: &[u8],
    socket: &Socket,
) -> Result<(), AllocError>
    ensures { OnOk result (out.new.items ≡ out.old.items ++ line_text (socket_words name.now socket.now)) }
{
    out.extend_from_slice(name)?;
    push_socket(alloc, out, socket)?;
    push_newline(out)
}

#[tactic(auto, unfolding(law_scripts::specs::Printed::key_lines, law_scripts::specs::Printed::lines_text))]
fn push_key(out: &mut Vec<u8>, shared: Option<&SharedKey>) -> Result<(), AllocError>
    ensures { OnOk result (out.new.items ≡ out.old.items ++ lines_text
        (key_lines (option_map (λ k. k.now) shared.entry))) }
{
    if let Some(key) = shared {
        out.extend_from_slice(b"shared")?;
        push_text(out, key.alg.name())?;
        push_bytes(out, key.master.as_slice())?;
        push_newline(out)?;
    }
    Ok(())
}

fn push_events(out: &mut Vec<u8>, events: &[Event]) -> Result<(), AllocError>
    ensures { OnOk result (out.new.items ≡ out.old.items ++ lines_text (map event_words events.now)) }
{
    for event in events {
        push_event(out, event)?;
    }
    Ok(())
}

/// The text of a script: its head and a line for each event, words with one space between them,
/// hexadecimal in lower case.
///
/// The script is one that a link file can say: `IsScript` tells the ranges. The text is read again
/// as this script, with keys from a key file where it has no shared key. An error is want of memory.
#[tactic(auto, unfolding(law_scripts::specs::Printed::text_of, law_scripts::specs::Printed::script_lines, law_scripts::specs::Printed::lines_text))]
pub fn print_script(alloc: Global, script: &Script) -> Result<Bytes, AllocError>
    requires { IsScript script.now }
    ensures text { IfOk result (λ text. text ≡ text_of script.now) }
    ensures read_again { IfOk result (λ text. script_of (keys_by script.now.shared) text ≡ Ok script.now) }
{
    let mut out = Vec::new(alloc);
    push_title(&mut out)?;
    push_socket_line(alloc, &mut out, b"a", &script.a)?;
    push_socket_line(alloc, &mut out, b"b", &script.b)?;
    push_key(&mut out, script.shared.as_ref())?;
    push_events(&mut out, script.events.as_slice())?;
    Ok(Bytes::from_vec(out))
}
