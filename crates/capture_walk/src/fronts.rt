//! The front of a file and its next part, as far as they are in a buffer.
ghost use Rattle.std.specs.Prelude.{◌≡◌, ◌==◌, if◌then◌else◌, ℕ, ◌≤◌, List, [], length, None};
ghost use Rattle.ao_base.specs.Outside.{Side};
ghost use Rattle.capture_reader.specs.Sizes.{short_of};
ghost use Rattle.capture_walk.specs.Fronts.{IsOpenedHere, Opens, Finds};

use ao_base::{Buffer, Filled, Source, fill};
use book_captures::{Cause, Format, Interface};
use capture_reader::{
    FileFront, FoundPart, PCAP_HEAD, part_head, part_size, read_front, read_part, short_part,
};

/// What reading the front of a file gives.
#[derive(Clone, Copy)]
pub(crate) enum Opened {
    At(FileFront),
    Bad(Cause),
    Fault,
}

/// What reading a part gives, or why there is none.
#[derive(Clone, Copy)]
pub(crate) enum Found {
    Whole(FoundPart),
    Done,
    Broken(Cause),
    Fault,
}

/// Reads the front of a file and passes over it, where it wasn't read before.
pub(crate) fn open<S: Source>(
    buffer: &mut Buffer,
    src: &mut S,
    had: Option<Format>,
    interfaces: &[Interface],
) -> Opened
    requires room { 24 ≤ buffer.old.size }
    requires first { had ≡ None → interfaces.now ≡ [] }
    ensures { (given : List ℕ) × Opens had interfaces.now buffer.old buffer.new (S.side src.old) (S.side src.new) given
        result }
{
    let _kept = buffer.kept();
    if let Some(format) = had {
        return Opened::At(FileFront { format, size: 0 });
    }
    match fill(buffer, src, PCAP_HEAD) {
        Filled::Fault => Opened::Fault,
        Filled::Ended => open_here(buffer),
        Filled::Enough => open_here(buffer),
    }
}

// Reads the front of what is kept, and passes over it.
fn open_here(buffer: &mut Buffer) -> Opened
    ensures { IsOpenedHere buffer.old buffer.new result }
{
    match read_front(buffer.kept()) {
        Ok(front) => {
            buffer.pass(0, 0, front.size);
            Opened::At(front)
        }
        Err(why) => Opened::Bad(why),
    }
}

/// Takes bytes until the part at the front is whole, and says what it is.
pub(crate) fn find_part<S: Source>(
    buffer: &mut Buffer,
    src: &mut S,
    format: Format,
    interfaces: &[Interface],
) -> Found
    requires { 16842752 ≤ buffer.old.size }
    ensures { (given : List ℕ) × Finds format interfaces.now buffer.old buffer.new (S.side src.old) (S.side src.new)
        given result }
{
    match fill(buffer, src, part_head(format)) {
        Filled::Fault => return Found::Fault,
        Filled::Ended => return none_or_short(format, buffer.kept()),
        Filled::Enough => {}
    }
    let size = match part_size(format, buffer.kept()) {
        Ok(size) => size,
        Err(why) => return Found::Broken(why),
    };
    match fill(buffer, src, size) {
        Filled::Fault => Found::Fault,
        Filled::Ended => Found::Broken(short_part(format)),
        Filled::Enough => match read_part(format, interfaces, buffer.kept()) {
            Ok(part) => Found::Whole(part),
            Err(why) => Found::Broken(why),
        },
    }
}

fn none_or_short(format: Format, kept: &[u8]) -> Found
    ensures { result ≡ (if length kept.now == 0 then Found.Done else Found.Broken (short_of format)) }
{
    if kept.is_empty() {
        Found::Done
    } else {
        Found::Broken(short_part(format))
    }
}
