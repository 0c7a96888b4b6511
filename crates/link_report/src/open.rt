//! The events by which a session begins.
ghost use Rattle.std.specs.Prelude.{◌≡◌, ◌∷◌, false, OnOk, OnErr, IfOk};
ghost use Rattle.book_endpoint.specs.States.{EndState};
ghost use Rattle.book_link.specs.declared.event.Action.TheVariants.{Connect, Listen, Start};
ghost use Rattle.book_link.specs.Worlds.{LinkSide as EndSide};
ghost use Rattle.link_report.specs.Sides.{StandsSide, sockets_of};
ghost use Rattle.link_report.specs.Steps.{Steps};
ghost use Rattle.tcp_endpoint.specs.Ends.{Stands, FitsEnd, pair_at_end};

use crate::answer::Answer;
use crate::sessions::Live;
use crate::side::Side;
use std::alloc::{AllocError, Global};
use tcp_endpoint::Endpoint;

impl Side {
    /// A session becomes the live one; the one before it is dropped. All memory is taken before.
    fn begin(&mut self, endpoint: Endpoint) -> Result<(), AllocError>
        requires bound { pair_at_end endpoint ≡ sockets_of self.old }
        requires fits { FitsEnd self.old.table.rows endpoint }
        ensures pair { sockets_of self.new ≡ sockets_of self.old }
        ensures begun { OnOk result ((m : EndSide) (s : EndState) → StandsSide self.old m → Stands endpoint s
            → StandsSide self.new
            (record {
              clock = m.clock;
              rows = m.rows;
              sessions = record { state = s; end_shown = false } ∷ m.sessions;
            })) }
        ensures same { OnErr result ((m : EndSide) → StandsSide self.old m → StandsSide self.new m) }
    {
        match &self.live {
            None => {
                self.live = Some(Live::begun(endpoint));
                Ok(())
            }
            Some(live) => {
                let ended = live.ended();
                self.dropped.push(ended)?;
                self.live = Some(Live::begun(endpoint));
                Ok(())
            }
        }
    }

    /// A session opens actively (RFC 9293, section 3.10.1), unless the end used the initial sequence
    /// number before; the one before it is dropped. Out of memory all is as it was.
    pub fn connect(&mut self, alloc: Global, isn: u32) -> Result<Answer, AllocError>
        ensures pair { sockets_of self.new ≡ sockets_of self.old }
        ensures step { IfOk result (λ told. Steps self.old self.new (Connect isn) told) }
        ensures same { OnErr result ((m : EndSide) → StandsSide self.old m → StandsSide self.new m) }
    {
        if self.has_used(isn) {
            return Ok(Answer::IsnUsed);
        }
        let endpoint = Endpoint::connect(alloc, &self.table, self.pair, isn)?;
        self.begin(endpoint)?;
        Ok(Answer::Done)
    }

    /// A session waits for its peer (RFC 9293, section 3.10.1), as for `connect`.
    pub fn listen(&mut self, alloc: Global, isn: u32) -> Result<Answer, AllocError>
        ensures pair { sockets_of self.new ≡ sockets_of self.old }
        ensures step { IfOk result (λ told. Steps self.old self.new (Listen isn) told) }
        ensures same { OnErr result ((m : EndSide) → StandsSide self.old m → StandsSide self.new m) }
    {
        if self.has_used(isn) {
            return Ok(Answer::IsnUsed);
        }
        let endpoint = Endpoint::listen(alloc, &self.table, self.pair, isn)?;
        self.begin(endpoint)?;
        Ok(Answer::Done)
    }

    /// A session is established without a handshake, as for `connect`.
    pub fn start(&mut self, alloc: Global, isn: u32, peer_isn: u32) -> Result<Answer, AllocError>
        ensures pair { sockets_of self.new ≡ sockets_of self.old }
        ensures step { IfOk result (λ told. Steps self.old self.new (Start isn peer_isn) told) }
        ensures same { OnErr result ((m : EndSide) → StandsSide self.old m → StandsSide self.new m) }
    {
        if self.has_used(isn) {
            return Ok(Answer::IsnUsed);
        }
        let endpoint = Endpoint::start(alloc, &self.table, self.pair, isn, peer_isn)?;
        self.begin(endpoint)?;
        Ok(Answer::Done)
    }
}
