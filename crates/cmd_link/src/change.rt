//! What an event changes at its end.
ghost use Rattle.std.specs.Prelude.{◌≡◌, ◌≤◌};
ghost use Rattle.book_cmd_link.specs.TimedRuns.{end_of_event, is_begin, is_done, is_sent, transmission_of};
ghost use Rattle.book_keys.specs.Lifetimes.{greatest_time};
ghost use Rattle.book_link.specs.Outcomes.{Outcome as OneOutcome};
ghost use Rattle.link_report.specs.Outcomes.{Shows};
ghost use Rattle.cmd_link.specs.Changes.{changed};
ghost use Rattle.cmd_link.specs.Watches.{seen};

use crate::watch::Watch;
use book_base::End;
use book_link::{Action, Event, Transmission};
use link_report::Outcome;
use link_world::Front;

/// What an event changed at its end.
#[derive(Clone, Copy)]
pub(crate) struct Change {
    /// The event begins a session, and that was done.
    pub(crate) begins: bool,
    pub(crate) done: bool,
    /// The event sends for the first time or again, and a segment was made.
    pub(crate) transmission: Transmission,
    pub(crate) sent: bool,
    /// The end's clock after it, in seconds since 1970.
    pub(crate) reading: u64,
    /// How far the end had sent before it, and after it.
    pub(crate) old: Option<Front>,
    pub(crate) new: Option<Front>,
}

/// The end of an event; none for one that only shows a segment.
pub(crate) fn end_of(event: &Event) -> Option<End>
    ensures { result ≡ end_of_event event.now }
{
    match event {
        Event::At(end, _) => Some(*end),
        Event::Dump(_) => None,
    }
}

/// Whether the event begins a session.
pub(crate) fn is_begin(event: &Event) -> bool
    ensures { result ≡ is_begin event.now }
{
    matches!(
        event,
        Event::At(
            _,
            Action::Connect(..) | Action::Listen(..) | Action::Start(..)
        )
    )
}

/// Whether the event sends for the first time or again.
pub(crate) fn transmission_of(event: &Event) -> Transmission
    ensures { result ≡ transmission_of event.now }
{
    match event {
        Event::At(_, Action::Resend) => Transmission::Again,
        _ => Transmission::New,
    }
}

/// Whether the event did something.
pub(crate) fn is_done(outcome: &Outcome) -> bool
    ensures { (is : OneOutcome) → Shows outcome.now is → result ≡ is_done is }
{
    matches!(outcome, Outcome::Done)
}

/// Whether a segment was made.
pub(crate) fn is_sent(outcome: &Outcome) -> bool
    ensures { (is : OneOutcome) → Shows outcome.now is → result ≡ is_sent is }
{
    matches!(outcome, Outcome::Sent(..))
}

impl Watch {
    /// What an event's change makes of the timer of its end: a new session has a new one, and what is
    /// sent again isn't timed (RFC 6298, section 3).
    pub(crate) fn apply(&mut self, change: &Change)
        requires { change.now.reading ≤ greatest_time }
        ensures { seen self.new ≡ changed change.now (seen self.old) }
    {
        if change.begins && change.done {
            *self = Watch::new();
            return;
        }
        self.follow(change.reading, change.transmission, change.old, change.new);
        if change.sent && matches!(change.transmission, Transmission::Again) {
            self.sending = None;
        }
    }
}
