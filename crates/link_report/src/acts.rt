//! The events at a live session by which no segment is made and nothing comes, and the clock.
ghost use Rattle.std.specs.Prelude.{◌≡◌, ◌≤◌, length, OnErr, IfOk};
ghost use Rattle.book_keys.specs.Lifetimes.{greatest_time};
ghost use Rattle.book_link.specs.declared.event.Action.TheVariants.{Clock, Give, Fill, Take, Close, Abort};
ghost use Rattle.link_report.specs.SideOutcomes.{answer_given};
ghost use Rattle.book_link.specs.Steps.{given, took};
ghost use Rattle.link_report.specs.Sides.{sockets_of};
ghost use Rattle.link_report.specs.Steps.{Steps, StepsBy};

use crate::answer::Answer;
use crate::side::Side;
use book_base::Bytes;
use std::alloc::{AllocError, Global};
use tcp_endpoint::GiveAnswer;

/// What it answers that a piece was given, or wasn't.
fn answer_of(given: GiveAnswer) -> Answer
    ensures { result ≡ answer_given given }
{
    match given {
        GiveAnswer::Ok => Answer::Done,
        GiveAnswer::Full => Answer::Full,
        GiveAnswer::Closed => Answer::Closed,
    }
}

impl Side {
    /// The clock reads so many seconds since 1970, at most LATEST, and the live session ticks.
    pub fn set_clock(&mut self, seconds: u64) -> Answer
        requires { seconds ≤ greatest_time }
        ensures pair { sockets_of self.new ≡ sockets_of self.old }
        ensures step { Steps self.old self.new (Clock seconds) result }
    {
        self.clock = seconds;
        if let Some(live) = &mut self.live {
            live.endpoint.tick(seconds);
        }
        Answer::Done
    }

    /// The live session is offered a piece.
    fn offer(&mut self, piece: &[u8]) -> Answer
        ensures pair { sockets_of self.new ≡ sockets_of self.old }
        ensures step { StepsBy self.old self.new (given piece.now) result }
    {
        match &mut self.live {
            None => Answer::NoSession,
            Some(live) => answer_of(live.endpoint.give(piece)),
        }
    }

    /// The live session's ready bytes are taken into `bytes`, as many as it has room for.
    fn take_into(&mut self, mut bytes: Vec<u8>) -> Answer
        ensures pair { sockets_of self.new ≡ sockets_of self.old }
        ensures step { StepsBy self.old self.new (took (length bytes.items)) result }
    {
        match &mut self.live {
            None => Answer::NoSession,
            Some(live) => {
                let taken = live.endpoint.take(bytes.as_mut_slice());
                bytes.truncate(taken);
                let at_end = live.endpoint.at_end();
                live.end_shown |= at_end;
                Answer::Took(Bytes::from_vec(bytes), at_end)
            }
        }
    }

    /// The live session's user gives it a piece: all of it, or none.
    pub fn give(&mut self, piece: &Bytes) -> Answer
        ensures pair { sockets_of self.new ≡ sockets_of self.old }
        ensures step { Steps self.old self.new (Give piece.now) result }
    {
        self.offer(piece.as_slice())
    }

    /// The live session's user gives it a byte so many times: all, or none. Out of memory all is as it
    /// was.
    pub fn fill(&mut self, alloc: Global, count: u16, byte: u8) -> Result<Answer, AllocError>
        ensures pair { sockets_of self.new ≡ sockets_of self.old }
        ensures step { IfOk result (λ told. Steps self.old self.new (Fill count byte) told) }
        ensures same { OnErr result (self.new ≡ self.old) }
    {
        if self.live.is_none() {
            return Ok(Answer::NoSession);
        }
        let mut piece = Vec::new(alloc);
        piece.resize(usize::from(count), byte)?;
        Ok(self.offer(piece.as_slice()))
    }

    /// The live session's user takes so many of the ready bytes, or all. Out of memory all is as it
    /// was.
    pub fn take(&mut self, alloc: Global, count: u16) -> Result<Answer, AllocError>
        ensures pair { sockets_of self.new ≡ sockets_of self.old }
        ensures step { IfOk result (λ told. Steps self.old self.new (Take count) told) }
        ensures same { OnErr result (self.new ≡ self.old) }
    {
        if self.live.is_none() {
            return Ok(Answer::NoSession);
        }
        let mut bytes = Vec::new(alloc);
        bytes.resize(usize::from(count), 0)?;
        Ok(self.take_into(bytes))
    }

    /// The live session's user has no more bytes to give.
    pub fn close(&mut self) -> Answer
        ensures pair { sockets_of self.new ≡ sockets_of self.old }
        ensures step { Steps self.old self.new Close result }
    {
        match &mut self.live {
            None => Answer::NoSession,
            Some(live) => {
                live.endpoint.close();
                Answer::Done
            }
        }
    }

    /// The live session's user gives the connection up.
    pub fn abort(&mut self) -> Answer
        ensures pair { sockets_of self.new ≡ sockets_of self.old }
        ensures step { Steps self.old self.new Abort result }
    {
        match &mut self.live {
            None => Answer::NoSession,
            Some(live) => {
                live.endpoint.abort();
                Answer::Done
            }
        }
    }
}
