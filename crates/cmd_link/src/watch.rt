//! The timer of an end.
ghost use Rattle.std.specs.Prelude.{◌≡◌, ◌≤◌, None, Some, IfSome};
ghost use Rattle.book_cmd_link.specs.TimedRuns.{due, new_watch, sampled_by, started_anew, stopped, watch_by};
ghost use Rattle.book_keys.specs.Lifetimes.{greatest_time};
ghost use Rattle.link_world.specs.Fronts.{front_of};
ghost use Rattle.cmd_link.specs.Watches.{acknowledged_at, expired_at, front_seen, seen, sent_more};

use book_link::Transmission;
use link_world::Front;
use stack_timers::Rto;

/// How many milliseconds a second has.
const SECOND: u32 = 1000;

/// The most seconds that a sample counts for, a day.
const LONGEST: u64 = 86_400;

/// A number whose acknowledgement is timed, and the reading at which it was sent (RFC 6298, section 3).
#[derive(Clone, Copy)]
pub(crate) struct Sending {
    pub(crate) number: u64,
    pub(crate) reading: u64,
}

/// The timer of an end, when it expires if it runs, and what is timed (RFC 6298, section 5). Readings
/// are in seconds since 1970.
#[derive(Drop)]
pub(crate) struct Watch {
    pub(crate) timer: Rto,
    pub(crate) deadline: Option<u64>,
    pub(crate) sending: Option<Sending>,
}

impl Watch {
    /// The timer of a new session: it doesn't run, and nothing is timed.
    pub(crate) fn new() -> Watch
        ensures { seen result ≡ new_watch }
    {
        Watch {
            timer: Rto::new(),
            deadline: None,
            sending: None,
        }
    }

    /// When the timer expires next, at least one second after the reading.
    pub(crate) fn due(&self, reading: u64) -> Option<u64>
        requires { reading ≤ greatest_time }
        ensures { result ≡ due reading (seen self.now).deadline }
    {
        self.deadline.map(|deadline| deadline.max(reading + 1))
    }

    /// The timer runs anew: its value in seconds, rounded up, after the reading.
    fn start_anew(&mut self, reading: u64)
        requires { reading ≤ greatest_time }
        ensures { seen self.new ≡ started_anew reading (seen self.old) }
    {
        let seconds = (self.timer.value() + (SECOND - 1)) / SECOND;
        self.deadline = Some(reading + u64::from(seconds));
    }

    /// The timer stops, and nothing is timed.
    fn stop(&mut self)
        ensures { seen self.new ≡ stopped (seen self.old) }
    {
        self.deadline = None;
        self.sending = None;
    }

    /// Takes a sample, where what is timed was acknowledged (RFC 6298, section 3).
    fn sample(&mut self, una: u64, reading: u64)
        ensures { seen self.new ≡ sampled_by una reading (seen self.old) (seen self.old).timed }
    {
        if let Some(sending) = self.sending {
            if sending.number <= una {
                let seconds = reading.saturating_sub(sending.reading).min(LONGEST);
                self.timer.sample(seconds as u32);
                self.sending = None;
            }
        }
    }

    /// New data was acknowledged (RFC 6298, sections 5.2 and 5.3).
    fn acknowledge(&mut self, reading: u64, front: Front)
        requires { reading ≤ greatest_time }
        ensures { seen self.new ≡ acknowledged_at reading (front_of front) (seen self.old) }
    {
        self.sample(front.una, reading);
        if front.una < front.next {
            self.start_anew(reading);
        } else {
            self.stop();
        }
    }

    /// New numbers were sent, for the first time or again (RFC 6298, section 5.1).
    fn send_more(&mut self, reading: u64, front: Front, transmission: Transmission)
        requires { reading ≤ greatest_time }
        ensures { seen self.new ≡ sent_more reading (front_of front) transmission (seen self.old) }
    {
        if self.deadline.is_none() {
            self.start_anew(reading);
        }
        if self.sending.is_none() && matches!(transmission, Transmission::New) {
            self.sending = Some(Sending {
                number: front.next,
                reading,
            });
        }
    }

    /// The end got from one front to another.
    fn advance(&mut self, reading: u64, transmission: Transmission, old: Front, new: Front)
        requires { reading ≤ greatest_time }
        ensures { seen self.new ≡ watch_by reading transmission (Some (front_of old)) (Some (front_of new))
            (seen self.old) }
    {
        if old.una < new.una {
            self.acknowledge(reading, new);
        } else if old.next < new.next {
            self.send_more(reading, new, transmission);
        }
    }

    /// The end got from one front to another, where it has one. Without a front the timer doesn't run.
    pub(crate) fn follow(
        &mut self,
        reading: u64,
        transmission: Transmission,
        old: Option<Front>,
        new: Option<Front>,
    )
        requires { reading ≤ greatest_time }
        ensures { seen self.new ≡ watch_by reading transmission (front_seen old) (front_seen new) (seen self.old) }
    {
        match (old, new) {
            (_, None) => self.stop(),
            (None, Some(_)) => {}
            (Some(old), Some(new)) => self.advance(reading, transmission, old, new),
        }
    }

    /// The timer expired: its value is doubled, and it runs anew (RFC 6298, sections 5.5 and 5.6).
    pub(crate) fn expire(&mut self, reading: u64)
        requires { reading ≤ greatest_time }
        ensures { seen self.new ≡ expired_at reading (seen self.old) }
    {
        self.timer.back_off();
        self.start_anew(reading);
    }
}
