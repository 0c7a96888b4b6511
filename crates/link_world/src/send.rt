//! The events by which an end makes a segment.
ghost use Rattle.std.specs.Prelude.{◌≡◌, ◌<◌, ◌≤◌, length};
ghost use Rattle.book_base.specs.declared.end.End.{End};
ghost use Rattle.link_report.specs.Logs.{made_count};
ghost use Rattle.book_link.specs.declared.event.Event.TheVariants.{At};
ghost use Rattle.book_link.specs.Steps.{step};
ghost use Rattle.book_link.specs.Worlds.{Setup, World, pair_of, side as side_of};
ghost use Rattle.link_report.specs.Outcomes.{Shows};
ghost use Rattle.link_report.specs.Segments.{HasSent, length_sent, quiet, sending};
ghost use Rattle.link_report.specs.Sides.{StandsSide, sockets_of};
ghost use Rattle.link_world.specs.Changes.{Acts, by_event};
ghost use Rattle.link_world.specs.Links.{AreOfEnd};

use ao_base::Steps;
use book_base::{Bytes, End};
use book_link::Transmission;
use link_report::{Log, Outcome, Side};
use std::alloc::{AllocError, Global};
use std::marker::Brand;
use std::sync::ledger::{Blank, Ledger};
use tcp_endpoint::Emission;

/// The most bytes of a segment that an end makes.
const MOST_SEGMENT: usize = 1_500;

/// The outcome where nothing is to be sent, or to be sent again.
fn quiet(transmission: Transmission) -> Outcome
    ensures { Shows result (quiet transmission) }
{
    match transmission {
        Transmission::New => Outcome::Idle,
        Transmission::Again => Outcome::Nothing,
    }
}

/// The live session makes its next segment, or makes one again, with a counter of its own.
fn send_counted<L: Ledger>(
    blank: Blank,
    side: &mut Side,
    transmission: Transmission,
    out: &mut [u8],
) -> Option<Emission>
    requires name { blank.name ≡ L.name }
    requires parts { blank.parts ≡ L.parts }
    requires part { 0 < blank.parts }
    requires room { 1500 ≤ length out.old }
    ensures pair { sockets_of side.new ≡ sockets_of side.old }
    ensures sent { (setup : Setup) (w : World) (e : End) → pair_of setup e ≡ sockets_of side.old
        → StandsSide side.old (side_of w e)
        → HasSent w (step setup w (At e (sending transmission))) transmission e side.new out.old out.new result }
    ensures short { length_sent result ≤ 1500 }
{
    let mut steps = Steps::<L>::new(blank);
    side.send(transmission, out, &mut steps)
}

/// The live session of the end makes its next segment, or makes one again; it is kept. All memory is
/// taken before.
pub(crate) fn send(
    side: &mut Side,
    log: &mut Log,
    alloc: Global,
    at: End,
    transmission: Transmission,
) -> Result<Outcome, AllocError>
    requires at { ∥ AreOfEnd at side.old log.old ∥₁ }
    requires made { made_count log.old < 4294967295 }
    ensures { Acts at side.old side.new log.old log.new (by_event (At at (sending transmission))) result }
{
    log.reserve(alloc)?;
    let mut bytes = Vec::new(alloc);
    bytes.resize(MOST_SEGMENT, 0)?;
    match send_counted::<Brand>(Blank::new(1), side, transmission, bytes.as_mut_slice()) {
        None => Ok(Outcome::NoSession),
        Some(emission) => match emission {
            Emission::Idle => Ok(quiet(transmission)),
            Emission::NoKey => Ok(Outcome::NoKey),
            Emission::Segment(made) => {
                bytes.truncate(made.length);
                let row = side.table().row(made.sending.row);
                let bytes = Bytes::from_vec(bytes);
                let name = log.push(at, made.number, row, made.context, bytes);
                Ok(Outcome::Sent(name, made))
            }
        },
    }
}
