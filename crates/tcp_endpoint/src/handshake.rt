//! The segments that open a connection.
ghost use Rattle.std.specs.Prelude.{◌≡◌, true, ◌+◌, ◌<◌, ◌%◌, ◌^◌, ◌==◌, ◌&&◌, not, nat_lt, ℕ, List};
ghost use Rattle.book_segments.specs.Bytes.{ring};
ghost use Rattle.book_endpoint.specs.declared.phase.Phase.TheVariants.{Listen, SynSent};
ghost use Rattle.book_endpoint.specs.States.{EndState};
ghost use Rattle.book_endpoint.specs.Arrivals as book;
ghost use Rattle.book_endpoint.specs.Hearing as hearing;
ghost use Rattle.endpoint_steps.specs.Arriving as stages;
ghost use Rattle.ao_check.specs.Bonds.{Fits};
ghost use Rattle.tcp_endpoint.specs.Ends.{Stands};
ghost use Rattle.tcp_endpoint.specs.Arrivals.{Reaches, LeavesAll, is_computed};

use crate::endpoint::Endpoint;
use crate::open::default_mss;
use crate::sequence::Received;
use book_base::Pair;
use book_endpoint::{Arrival, Phase};
use key_table::Table;
use tcp_segment::{Counter, Datagram, Flag};

/// The least maximum segment size that counts (own).
const LEAST_MSS: u16 = 88;

/// The peer's maximum segment size.
fn peer_mss(pair: &Pair, datagram: &Datagram<'_>) -> u16
    ensures { result ≡ hearing.peer_mss pair.now datagram.now }
{
    match datagram.options().mss() {
        Some(mss) => LEAST_MSS.max(mss),
        None => LEAST_MSS.max(default_mss(&pair.local.address)),
    }
}

/// SYN without ACK, RST and FIN.
fn is_syn_alone(datagram: &Datagram<'_>) -> bool
    ensures { result ≡ book.syn_alone datagram.now }
{
    datagram.has(Flag::Syn)
        && !datagram.has(Flag::Ack)
        && !datagram.has(Flag::Rst)
        && !datagram.has(Flag::Fin)
}

/// SYN and ACK without RST and FIN.
fn is_syn_ack_alone(datagram: &Datagram<'_>) -> bool
    ensures { result ≡ book.syn_ack_alone datagram.now }
{
    datagram.has(Flag::Syn)
        && datagram.has(Flag::Ack)
        && !datagram.has(Flag::Rst)
        && !datagram.has(Flag::Fin)
}

/// Whether a field acknowledges the SYN with this number, which was sent where `next` is past it.
fn acknowledges_syn(isn: u32, next: u64, acknowledgement: u32) -> bool
    ensures { result ≡ (nat_lt isn next && (acknowledgement == (isn + 1) % ring)) }
{
    u64::from(isn) < next && acknowledgement == Counter::of(u64::from(isn) + 1).low
}

impl Endpoint {
    /// A SYN that opens (RFC 9293, section 3.10.7.2).
    pub(crate) fn hear_syn(
        &mut self,
        table: &Table,
        datagram: &Datagram<'_>,
        rnext: u8,
        now: u64,
    ) -> Arrival
        requires { self.old.phase ≡ Listen }
        ensures reaches { (s : EndState) → Stands self.old s
            → Reaches self.new result (stages.after_check self.old.pair s
            (book.heard table.now.rows self.old.pair now s rnext) datagram.now datagram.now.sequence now Listen) }
        ensures unchanged { LeavesAll result → self.new ≡ self.old }
        ensures checked { is_computed result ≡ true }
        ensures pair { self.new.pair ≡ self.old.pair }
        ensures keys { self.new.association.keys ≡ self.old.association.keys }
        ensures fits { Fits table.now.rows self.old.association → Fits table.now.rows self.new.association }
    {
        if !is_syn_alone(datagram) {
            return Arrival::Unexpected;
        }
        let peer = datagram.sequence();
        self.association.follow(table, rnext, now);
        self.association.learn(peer);
        self.reassembly.restart(u64::from(peer) + 1);
        self.peer_isn = Some(peer);
        self.mss = peer_mss(&self.pair, datagram);
        self.send_window = datagram.window();
        self.sequence.received = Some(Received {
            expected: Counter::of(u64::from(peer) + 1),
            wl1: Counter::of(u64::from(peer)),
            wl2: Counter::of(u64::from(self.isn)),
            fin: None,
        });
        self.phase = Phase::SynReceived;
        Arrival::Taken
    }

    /// The SYN with ACK that answers the own SYN (RFC 9293, section 3.10.7.3).
    pub(crate) fn hear_syn_ack(
        &mut self,
        table: &Table,
        datagram: &Datagram<'_>,
        rnext: u8,
        now: u64,
    ) -> Arrival
        requires { self.old.phase ≡ SynSent }
        ensures reaches { (s : EndState) → Stands self.old s
            → Reaches self.new result (stages.after_check self.old.pair s
            (book.heard table.now.rows self.old.pair now s rnext) datagram.now datagram.now.sequence now SynSent) }
        ensures unchanged { LeavesAll result → self.new ≡ self.old }
        ensures checked { is_computed result ≡ true }
        ensures pair { self.new.pair ≡ self.old.pair }
        ensures keys { self.new.association.keys ≡ self.old.association.keys }
        ensures fits { Fits table.now.rows self.old.association → Fits table.now.rows self.new.association }
    {
        if !is_syn_ack_alone(datagram) {
            return Arrival::Unexpected;
        }
        if !acknowledges_syn(
            self.isn,
            self.sequence.next.value(),
            datagram.acknowledgement(),
        ) {
            return Arrival::BadAck;
        }
        let peer = datagram.sequence();
        self.association.follow(table, rnext, now);
        self.association.learn(peer);
        self.reassembly.restart(u64::from(peer) + 1);
        self.peer_isn = Some(peer);
        self.mss = peer_mss(&self.pair, datagram);
        self.send_window = datagram.window();
        self.sequence.una = Counter::of(u64::from(self.isn) + 1);
        self.sequence.received = Some(Received {
            expected: Counter::of(u64::from(peer) + 1),
            wl1: Counter::of(u64::from(peer)),
            wl2: Counter::of(u64::from(self.isn) + 1),
            fin: None,
        });
        self.ack_owed = true;
        self.phase = Phase::Established;
        Arrival::Taken
    }
}
