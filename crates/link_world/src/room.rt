//! Room for the bytes that an outcome carries.
ghost use Rattle.std.specs.Prelude.{◌≡◌, List, IfOk, length};
ghost use Rattle.book_link.specs.Worlds.{Happening};
ghost use Rattle.link_report.specs.Logs.{StandsLog};
ghost use Rattle.link_world.specs.Events.{most_content};

use book_link::{Action, Event};
use link_report::Log;
use std::alloc::{AllocError, Global};

/// The most bytes that the outcome of an event carries.
fn most_content(log: &Log, event: &Event) -> usize
    ensures { (history : List Happening) → StandsLog log.now history → result ≡ most_content event.now history }
{
    match event {
        Event::At(_, Action::Take(count)) => usize::from(*count),
        Event::Dump(name) => match log.segment(*name) {
            Some(entry) => entry.bytes.as_slice().len(),
            None => 0,
        },
        _ => 0,
    }
}

/// Room for the bytes that the outcome of an event carries, taken before anything changes.
pub(crate) fn room_for(log: &Log, alloc: Global, event: &Event) -> Result<Vec<u8>, AllocError>
    ensures { IfOk result (λ room. (history : List Happening) → StandsLog log.now history
        → length room.items ≡ most_content event.now history) }
{
    let mut room = Vec::new(alloc);
    room.resize(most_content(log, event), 0)?;
    Ok(room)
}
