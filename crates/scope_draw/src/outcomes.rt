//! The rung of an event by its outcome.
ghost use Rattle.std.specs.Prelude.{◌≡◌};
ghost use Rattle.book_link.specs.Outcomes as book;
ghost use Rattle.book_link.specs.Worlds.{Made as BookMade};
ghost use Rattle.book_draw.specs.Rungs.{coming_rung, making_rung, phase_place, reply_of, rung_at, rung_of};
ghost use Rattle.book_draw.specs.Rungs.{same_phase, sketch_of, turned};
ghost use Rattle.link_report.specs.Outcomes.{Shows, TellsMade};

use book_base::End;
use book_draw::{Brought, Deed, Reply, Rung, Sketch};
use book_endpoint::Phase;
use book_link::{Action, Event, Transmission};
use link_report::Outcome;
use tcp_endpoint::Made;

fn sketch_of(name: u32, made: &Made) -> Sketch
    ensures { (is : BookMade) → TellsMade name made.now is → result ≡ sketch_of is }
{
    Sketch {
        name,
        flags: made.flags,
        number: made.number,
        ack: made.ack,
        length: made.payload as u64,
        key_id: made.sending.key_id,
        rnext_key_id: made.sending.rnext,
    }
}

fn reply_of(outcome: &Outcome) -> Reply
    ensures { (is : book.Outcome) → Shows outcome.now is → result ≡ reply_of is }
{
    match outcome {
        Outcome::Done => Reply::Done,
        Outcome::IsnUsed => Reply::IsnUsed,
        Outcome::NoSession => Reply::NoSession,
        Outcome::NoSegment => Reply::NoSegment,
        Outcome::NoPlace => Reply::NoPlace,
        Outcome::Full => Reply::Full,
        Outcome::Closed => Reply::Closed,
        Outcome::Sent(_, _) => Reply::Done,
        Outcome::NoKey => Reply::NoKey,
        Outcome::Idle => Reply::Idle,
        Outcome::Nothing => Reply::Nothing,
        Outcome::Arrival(_) => Reply::Done,
        Outcome::Took(bytes, end_shown) => Reply::Took(bytes.as_slice().len() as u64, *end_shown),
        Outcome::Image(_) => Reply::Done,
        Outcome::Added(row) => Reply::Added(*row),
        Outcome::TooManyRows => Reply::TooManyRows,
        Outcome::Overlap(row) => Reply::Overlap(*row),
        Outcome::NoRow => Reply::NoRow,
    }
}

/// The rung of a call that makes a segment, or none.
fn making_rung(end: End, deed: Deed, transmission: Transmission, outcome: &Outcome) -> Rung
    ensures { (is : book.Outcome) → Shows outcome.now is → result ≡ making_rung end deed transmission is }
{
    match outcome {
        Outcome::Sent(name, made) => Rung::Made(end, sketch_of(*name, made), transmission),
        _ => Rung::Call(end, deed, reply_of(outcome)),
    }
}

/// The rung of an arrival, where there is one.
fn coming_rung(end: End, deed: Deed, what: Brought, outcome: &Outcome) -> Rung
    ensures { (is : book.Outcome) → Shows outcome.now is → result ≡ coming_rung end deed what is }
{
    match outcome {
        Outcome::Arrival(answer) => Rung::Came(end, what, *answer),
        _ => Rung::Call(end, deed, reply_of(outcome)),
    }
}

/// The rung of an action at an end with this outcome.
fn rung_at(end: End, action: &Action, outcome: &Outcome) -> Rung
    ensures { (is : book.Outcome) → Shows outcome.now is → result ≡ rung_at end action.now is }
{
    match action {
        Action::Clock(seconds) => Rung::Clock(end, *seconds),
        Action::Connect(_) => Rung::Call(end, Deed::Connect, reply_of(outcome)),
        Action::Listen(_) => Rung::Call(end, Deed::Listen, reply_of(outcome)),
        Action::Start(_, _) => Rung::Call(end, Deed::Start, reply_of(outcome)),
        Action::Give(bytes) => {
            let count = bytes.as_slice().len() as u64;
            Rung::Call(end, Deed::Give(count), reply_of(outcome))
        }
        Action::Fill(count, _) => Rung::Call(end, Deed::Give(u64::from(*count)), reply_of(outcome)),
        Action::Send => making_rung(end, Deed::Send, Transmission::New, outcome),
        Action::Resend => making_rung(end, Deed::Resend, Transmission::Again, outcome),
        Action::Deliver(name) => {
            coming_rung(end, Deed::Deliver(*name), Brought::Segment(*name), outcome)
        }
        Action::Inject(_) => coming_rung(end, Deed::Inject, Brought::Injected, outcome),
        Action::Alter(name, _, _, _) => {
            coming_rung(end, Deed::Alter(*name), Brought::Altered(*name), outcome)
        }
        Action::Take(_) => Rung::Call(end, Deed::Take, reply_of(outcome)),
        Action::Close => Rung::Call(end, Deed::Close, reply_of(outcome)),
        Action::Abort => Rung::Call(end, Deed::Abort, reply_of(outcome)),
        Action::AddRow(_) => Rung::Call(end, Deed::Add, reply_of(outcome)),
        Action::Withdraw(row) => Rung::Call(end, Deed::Withdraw(*row), reply_of(outcome)),
    }
}

/// The rung of an event with this outcome; none exactly where a segment is to be shown.
pub(crate) fn rung_of(event: &Event, outcome: &Outcome) -> Option<Rung>
    ensures { (is : book.Outcome) → Shows outcome.now is → result ≡ rung_of event.now is }
{
    match event {
        Event::At(end, action) => Some(rung_at(*end, action, outcome)),
        Event::Dump(_) => None,
    }
}

fn phase_place(phase: Phase) -> u8
    ensures { result ≡ phase_place phase }
{
    match phase {
        Phase::Listen => 0,
        Phase::SynSent => 1,
        Phase::SynReceived => 2,
        Phase::Established => 3,
        Phase::FinWait1 => 4,
        Phase::FinWait2 => 5,
        Phase::CloseWait => 6,
        Phase::Closing => 7,
        Phase::LastAck => 8,
        Phase::TimeWait => 9,
        Phase::Closed => 10,
    }
}

fn same_phase(one: Phase, other: Phase) -> bool
    ensures { result ≡ same_phase one other }
{
    phase_place(one) == phase_place(other)
}

/// The rung of an end's phases before an event and after it; none where they are the same.
pub(crate) fn turned(end: End, before: Option<Phase>, after: Option<Phase>) -> Option<Rung>
    ensures { result ≡ turned end before after }
{
    match (before, after) {
        (_, None) => None,
        (None, Some(now)) => Some(Rung::Turned(end, now)),
        (Some(was), Some(now)) => {
            if same_phase(was, now) {
                None
            } else {
                Some(Rung::Turned(end, now))
            }
        }
    }
}
