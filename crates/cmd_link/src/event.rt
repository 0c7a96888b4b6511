//! The event that a draw makes of a link.
ghost use Rattle.std.specs.Prelude.{◌≡◌, ◌<◌, ◌+◌, ◌/◌, ◌%◌, List};
ghost use Rattle.book_link.specs.declared.event.Event.{Event as Happening};
ghost use Rattle.book_link.specs.Runs.{run};
ghost use Rattle.book_link.specs.Storm.{drawn_end, event_by, event_of, last_delivered, one_delivered};
ghost use Rattle.book_link.specs.Worlds.{Setup as Link, segment_named, segments};
ghost use Rattle.link_world.specs.Stands.{StandsFor};

use book_base::End;
use book_link::{Action, Event};
use both_ends::other;
use link_world::World;

fn end_of(number: u64) -> End
    ensures { result ≡ drawn_end number }
{
    if number % 2 == 0 { End::A } else { End::B }
}

/// The last segment is delivered to the end that didn't make it; where there is none, the end sends.
fn last_delivered(world: &World, end: End) -> Event
    ensures { (setup : Link) (events : List Happening) → StandsFor world.now setup events
        → let past = (run setup events).history in result ≡ last_delivered end (segment_named (segments past) past) }
{
    let made = world.made();
    if made == 0 {
        return Event::At(end, Action::Send);
    }
    let maker = world.maker(made);
    Event::At(other(maker), Action::Deliver(made))
}

/// One of so many segments is delivered; where there is none, the end sends.
fn one_delivered(end: End, made: u32, number: u64) -> Event
    ensures { result ≡ one_delivered end made number }
{
    if made == 0 {
        return Event::At(end, Action::Send);
    }
    let place = number % u64::from(made);
    Event::At(end, Action::Deliver(1 + place as u32))
}

/// The event of this kind, below 8, at this end, with this number.
fn event_by(world: &World, end: End, kind: u64, number: u64) -> Event
    requires { kind < 8 }
    ensures { (setup : Link) (events : List Happening) → StandsFor world.now setup events
        → result ≡ event_by (run setup events) end kind number }
{
    match kind {
        0 => {
            let byte = (number / 1_000 % 256) as u8;
            Event::At(end, Action::Fill((number % 1_000) as u16, byte))
        }
        1 => Event::At(end, Action::Send),
        2 => Event::At(end, Action::Send),
        3 => last_delivered(world, end),
        4 => last_delivered(world, end),
        5 => one_delivered(end, world.made(), number),
        6 => Event::At(end, Action::Resend),
        _ => Event::At(end, Action::Take((number % 2_000) as u16)),
    }
}

/// The event that a drawn number makes of a link.
pub(crate) fn event_of(world: &World, number: u64) -> Event
    ensures { (setup : Link) (events : List Happening) → StandsFor world.now setup events
        → result ≡ event_of (run setup events) number }
{
    event_by(world, end_of(number), number / 2 % 8, number / 256)
}
