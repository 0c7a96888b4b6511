//! The timer of a connection is told what happened to it.
ghost use Rattle.std.specs.Prelude.{◌≡◌, ◌≤◌, true, is_some};
ghost use Rattle.book_cmd_node.specs.NodeRuns.{held_end};
ghost use Rattle.book_stack.specs.Stacks.{StackState, watched};
ghost use Rattle.book_stack.specs.Watches.{arrived};
ghost use Rattle.stack_timers.specs.Watches.{latest, seen};
ghost use Rattle.ao_stack.specs.Stands.{Stands};
ghost use Rattle.ao_stack.specs.Timers.{asked_by, woken_by};

use crate::stack::Stack;
use book_base::Pair;
use book_endpoint::Phase;
use book_stack::Change;
use stack_ends::{Says, Spoken};
use stack_timers::Watch;

/// The timer of an end that was asked for its next segment.
fn ask(watch: &mut Watch, now: u64, spoken: &Spoken)
    requires { now ≤ latest }
    ensures { seen watch.new ≡ asked_by now spoken.now (seen watch.old) }
{
    match spoken.says {
        Says::Segment(_) => watch.send(now, spoken.change),
        Says::NoKey => {}
        Says::Nothing => watch.settle(now, spoken.change.after.phase, spoken.waits),
    }
}

/// The timer of an end in this phase that was to send again.
fn wake(watch: &mut Watch, now: u64, phase: Phase, says: Says)
    requires { now ≤ latest }
    ensures { seen watch.new ≡ woken_by now phase says (seen watch.old) }
{
    match says {
        Says::Segment(_) => watch.expire(now, phase),
        Says::NoKey => watch.expire(now, phase),
        Says::Nothing => watch.stop(),
    }
}

impl Stack {
    /// The timer of the pair after its end heard a segment, and its alarm.
    pub(crate) fn time_arrival(&mut self, pair: &Pair, now: u64, change: Change)
        requires { now ≤ latest }
        ensures { (s : StackState) → Stands self.old s → is_some (held_end pair.now s.node.ends) ≡ true
            → Stands self.new (watched pair.now (arrived now change (s.watches pair.now)) s) }
    {
        match self.watches.get_mut(pair) {
            None => {}
            Some(watch) => {
                watch.arrive(now, change);
                let deadline = watch.deadline();
                self.alarms.set(pair, deadline);
            }
        }
    }

    /// The timer of the pair after its end was asked for its next segment, and its alarm.
    pub(crate) fn time_asked(&mut self, pair: &Pair, now: u64, spoken: &Spoken)
        requires { now ≤ latest }
        ensures { (s : StackState) → Stands self.old s → is_some (held_end pair.now s.node.ends) ≡ true
            → Stands self.new (watched pair.now (asked_by now spoken.now (s.watches pair.now)) s) }
    {
        match self.watches.get_mut(pair) {
            None => {}
            Some(watch) => {
                ask(watch, now, spoken);
                let deadline = watch.deadline();
                self.alarms.set(pair, deadline);
            }
        }
    }

    /// The timer of the pair after its end, in this phase, was to send again, and its alarm.
    pub(crate) fn time_woken(&mut self, pair: &Pair, now: u64, phase: Phase, says: Says)
        requires { now ≤ latest }
        ensures { (s : StackState) → Stands self.old s → is_some (held_end pair.now s.node.ends) ≡ true
            → Stands self.new (watched pair.now (woken_by now phase says (s.watches pair.now)) s) }
    {
        match self.watches.get_mut(pair) {
            None => {}
            Some(watch) => {
                wake(watch, now, phase, says);
                let deadline = watch.deadline();
                self.alarms.set(pair, deadline);
            }
        }
    }
}
