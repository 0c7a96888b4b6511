//! How an end begins.
ghost use Rattle.std.specs.Prelude.{◌≡◌, true, IfOk};
ghost use Rattle.book_endpoint.specs.States.{beginning, connected, listening, started, default_mss};
ghost use Rattle.book_base.specs.Addresses.{IsOneFamily};
ghost use Rattle.tcp_endpoint.specs.Halves.{waits};
ghost use Rattle.tcp_endpoint.specs.Ends.{Stands, FitsEnd, pair_at_end};

use crate::endpoint::Endpoint;
use crate::sequence::{Received, SequenceState};
use ao_check::Association;
use book_base::{Address, Pair};
use book_endpoint::Phase;
use book_keys::ROW_LIMIT;
use key_table::Table;
use segment_writer::own_mss;
use std::alloc::{AllocError, Global};
use stream_buffers::{Reassembly, SendQueue};
use tcp_segment::Counter;

/// For how many rows keys are kept: as many as a table has at most.
const ROWS: u8 = ROW_LIMIT as u8;

/// What a SYN without the option counts as (RFC 9293, section 3.7.1).
pub(crate) fn default_mss(address: &Address) -> u16
    ensures { result ≡ default_mss address.now }
{
    match address {
        Address::V4(_) => 536,
        Address::V6(_) => 1220,
    }
}

/// An end before it knows of its peer.
fn begin(
    alloc: Global,
    table: &Table,
    pair: Pair,
    isn: u32,
    phase: Phase,
) -> Result<Endpoint, AllocError>
    requires waits { waits phase ≡ true }
    requires family { IsOneFamily pair.local.address pair.remote.address }
    ensures stands { IfOk result (λ e. Stands e (beginning pair phase isn)) }
    ensures fits { IfOk result (λ e. FitsEnd table.now.rows e) }
    ensures pair { IfOk result (λ e. e.pair ≡ pair) }
{
    // It tells that a table has at most as many rows.
    let _rows = table.rows();
    let association = Association::new(alloc, table, pair, isn, ROWS)?;
    let queue = SendQueue::new(alloc)?;
    let reassembly = Reassembly::new(alloc, 0)?;
    let first = Counter::of(u64::from(isn));
    Ok(Endpoint {
        association,
        pair,
        isn,
        peer_isn: None,
        sequence: SequenceState {
            una: first,
            next: first,
            received: None,
        },
        send_window: 0,
        given: 0,
        taken: 0,
        phase,
        ack_owed: false,
        closing: false,
        rst_owed: false,
        mss: default_mss(&pair.local.address),
        deadline: None,
        queue,
        reassembly,
    })
}

impl Endpoint {
    /// An active open (RFC 9293, section 3.10.1): an end between these sockets that is about to send
    /// its SYN, with `isn` as its own initial sequence number. The addresses of the pair are of one
    /// family. The table fits the end. All memory is taken here; `AllocError` is want of it.
    pub fn connect(
        alloc: Global,
        table: &Table,
        pair: Pair,
        isn: u32,
    ) -> Result<Endpoint, AllocError>
        requires family { IsOneFamily pair.local.address pair.remote.address }
        ensures stands { IfOk result (λ e. Stands e (connected pair isn)) }
        ensures fits { IfOk result (λ e. FitsEnd table.now.rows e) }
        ensures pair { IfOk result (λ e. pair_at_end e ≡ pair) }
    {
        begin(alloc, table, pair, isn, Phase::SynSent)
    }

    /// A passive open (RFC 9293, section 3.10.1): an end that waits for the SYN of its peer. All else
    /// is as for `connect`.
    pub fn listen(
        alloc: Global,
        table: &Table,
        pair: Pair,
        isn: u32,
    ) -> Result<Endpoint, AllocError>
        requires family { IsOneFamily pair.local.address pair.remote.address }
        ensures stands { IfOk result (λ e. Stands e (listening pair isn)) }
        ensures fits { IfOk result (λ e. FitsEnd table.now.rows e) }
        ensures pair { IfOk result (λ e. pair_at_end e ≡ pair) }
    {
        begin(alloc, table, pair, isn, Phase::Listen)
    }

    /// A session whose two initial sequence numbers are known, without a handshake (own). All else is
    /// as for `connect`.
    pub fn start(
        alloc: Global,
        table: &Table,
        pair: Pair,
        own_isn: u32,
        peer_isn: u32,
    ) -> Result<Endpoint, AllocError>
        requires family { IsOneFamily pair.local.address pair.remote.address }
        ensures stands { IfOk result (λ e. Stands e (started pair own_isn peer_isn)) }
        ensures fits { IfOk result (λ e. FitsEnd table.now.rows e) }
        ensures pair { IfOk result (λ e. pair_at_end e ≡ pair) }
    {
        // It tells that a table has at most as many rows.
        let _rows = table.rows();
        let mut association = Association::new(alloc, table, pair, own_isn, ROWS)?;
        association.learn(peer_isn);
        let queue = SendQueue::new(alloc)?;
        let reassembly = Reassembly::new(alloc, u64::from(peer_isn) + 1)?;
        let first = Counter::of(u64::from(own_isn) + 1);
        Ok(Endpoint {
            association,
            pair,
            isn: own_isn,
            peer_isn: Some(peer_isn),
            sequence: SequenceState {
                una: first,
                next: first,
                received: Some(Received {
                    expected: Counter::of(u64::from(peer_isn) + 1),
                    wl1: Counter::of(u64::from(peer_isn)),
                    wl2: first,
                    fin: None,
                }),
            },
            send_window: 65535,
            given: 0,
            taken: 0,
            phase: Phase::Established,
            ack_owed: false,
            closing: false,
            rst_owed: false,
            mss: own_mss(&pair.local.address),
            deadline: None,
            queue,
            reassembly,
        })
    }
}
