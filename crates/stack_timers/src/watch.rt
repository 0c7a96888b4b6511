//! The timer of a connection.
ghost use Rattle.std.specs.Prelude.{◌≡◌, ◌≤◌};
ghost use Rattle.book_stack.specs.Watches as book;
ghost use Rattle.stack_timers.specs.Watches.{latest, seen};

use crate::rto::Rto;
use book_endpoint::{Arrival, Phase};
use book_stack::{Change, Front, Timed};

/// The most milliseconds that a sample counts for, a day.
const LONGEST: u64 = 86_400_000;

/// The user timeout, five minutes in milliseconds (RFC 9293, section 3.9.1.1).
const USER_TIMEOUT: u64 = 300_000;

/// What is kept of a connection beside its end. Times are in milliseconds since 1970.
#[derive(Drop)]
pub struct Watch {
    timer: Rto,
    deadline: Option<u64>,
    timed: Option<Timed>,
    syn_again: bool,
    heard: u64,
}

/// Whether the own SYN isn't acknowledged.
fn is_opening(phase: Phase) -> bool
    ensures { result ≡ book.is_opening phase }
{
    matches!(phase, Phase::SynSent | Phase::SynReceived)
}

/// Whether the phase is TIME-WAIT.
fn is_time_wait(phase: Phase) -> bool
    ensures { result ≡ book.is_time_wait phase }
{
    matches!(phase, Phase::TimeWait)
}

/// Whether the phase is LISTEN.
fn is_listening(phase: Phase) -> bool
    ensures { result ≡ book.is_listening phase }
{
    matches!(phase, Phase::Listen)
}

/// Whether a segment moved the connection on: it acknowledged a number that wasn't, or it brought the
/// number that was expected; never in LISTEN.
pub fn moves_on(change: Change) -> bool
    ensures { result ≡ book.moves_on change }
{
    !is_listening(change.before.phase)
        && (change.before.una < change.after.una || change.before.expected < change.after.expected)
}

/// Whether a segment with this answer passed the check.
pub fn is_heard(arrival: Arrival) -> bool
    ensures { result ≡ book.is_heard arrival }
{
    !matches!(
        arrival,
        Arrival::Bad(_)
            | Arrival::Foreign
            | Arrival::Checksum
            | Arrival::Closed
            | Arrival::Refused(_)
    )
}

impl Watch {
    /// The timer of a new connection: it doesn't run, and nothing is timed.
    pub fn new() -> Watch
        ensures { seen result ≡ book.new_connection_watch }
    {
        Watch {
            timer: Rto::new(),
            deadline: None,
            timed: None,
            syn_again: false,
            heard: 0,
        }
    }

    /// When the timer expires, if it runs, or TIME-WAIT ends.
    pub fn deadline(&self) -> Option<u64>
        ensures { result ≡ (seen self.now).deadline }
    {
        self.deadline
    }

    /// The timer runs anew, its value from now on.
    fn start(&mut self, now: u64)
        requires { now ≤ latest }
        ensures { seen self.new ≡ book.timer_started now (seen self.old) }
    {
        self.deadline = Some(now + u64::from(self.timer.value()));
    }

    /// The timer stops, and nothing is timed.
    pub fn stop(&mut self)
        ensures { seen self.new ≡ book.timer_stopped (seen self.old) }
    {
        self.deadline = None;
        self.timed = None;
    }

    /// Takes a sample, where what is timed was acknowledged (RFC 6298, section 3).
    fn sample(&mut self, now: u64, front: Front)
        ensures { seen self.new ≡ book.after_sample now front (seen self.old) (seen self.old).timed }
    {
        match self.timed {
            None => {}
            Some(timed) => {
                if timed.number <= front.una {
                    let millis = now.saturating_sub(timed.sent).min(LONGEST);
                    self.timer.sample_millis(millis as u32);
                    self.timed = None;
                }
            }
        }
    }

    /// New data was acknowledged (RFC 6298, sections 5.2 and 5.3).
    fn acknowledge(&mut self, now: u64, front: Front)
        requires { now ≤ latest }
        ensures { seen self.new ≡ book.after_acknowledgement now front (seen self.old) }
    {
        self.sample(now, front);
        if front.una < front.next {
            self.start(now);
        } else {
            self.stop();
        }
    }

    /// Data begins to flow after a SYN that was sent again: the timer begins anew, with three seconds (RFC
    /// 6298, section 5.7).
    fn open(&mut self, change: Change)
        ensures { seen self.new ≡ book.after_handshake change (seen self.old) }
    {
        if self.syn_again && is_opening(change.before.phase) && !is_opening(change.after.phase) {
            self.timer = Rto::new();
            self.timer.slow();
            self.syn_again = false;
        }
    }

    /// TIME-WAIT ends twice 120 seconds after it is entered.
    fn rest(&mut self, now: u64, change: Change)
        requires { now ≤ latest }
        ensures { seen self.new ≡ book.rests_now now change (seen self.old) }
    {
        if is_time_wait(change.after.phase) && !is_time_wait(change.before.phase) {
            self.deadline = Some(1000 * (now / 1000 + 240));
        }
    }

    /// A segment arrived that passed the check.
    pub fn arrive(&mut self, now: u64, change: Change)
        requires { now ≤ latest }
        ensures { seen self.new ≡ book.arrived now change (seen self.old) }
    {
        if moves_on(change) {
            self.heard = now;
        }
        self.open(change);
        if change.before.una < change.after.una {
            self.acknowledge(now, change.after);
        }
        self.rest(now, change);
    }

    /// The timer runs from now on, and the peer is waited for, unless it runs already (RFC 6298,
    /// section 5.1).
    fn run(&mut self, now: u64)
        requires { now ≤ latest }
        ensures { seen self.new ≡ book.running now (seen self.old) (seen self.old).deadline }
    {
        if self.deadline.is_none() {
            self.heard = now;
            self.start(now);
        }
    }

    /// A segment was sent for the first time (RFC 6298, sections 3 and 5.1).
    pub fn send(&mut self, now: u64, change: Change)
        requires { now ≤ latest }
        ensures { seen self.new ≡ book.after_sending now change (seen self.old) }
    {
        if change.before.next < change.after.next {
            self.run(now);
            if self.timed.is_none() {
                self.timed = Some(Timed {
                    number: change.after.next,
                    sent: now,
                });
            }
        }
    }

    /// The end has nothing to send in this phase, and waits for its peer or not.
    pub fn settle(&mut self, now: u64, phase: Phase, waits: bool)
        requires { now ≤ latest }
        ensures { seen self.new ≡ book.at_rest now phase waits (seen self.old) }
    {
        if waits {
            self.run(now);
        } else if !is_time_wait(phase) {
            self.stop();
        }
    }

    /// The timer expired in this phase (RFC 6298, sections 3, 5.5 and 5.6).
    pub fn expire(&mut self, now: u64, phase: Phase)
        requires { now ≤ latest }
        ensures { seen self.new ≡ book.expired_at now phase (seen self.old) }
    {
        self.timer.back_off();
        self.timed = None;
        self.syn_again |= is_opening(phase);
        self.start(now);
    }

    /// Whether an end in this phase has waited for its peer longer than the user timeout, and nothing
    /// moved the connection on meanwhile.
    pub fn is_overdue(&self, now: u64, phase: Phase) -> bool
        ensures { result ≡ book.is_overdue (book.silence now phase (seen self.now)) }
    {
        !is_time_wait(phase)
            && self.deadline.is_some()
            && now.saturating_sub(self.heard) >= USER_TIMEOUT
    }
}
