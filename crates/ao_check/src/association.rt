//! An association of one end with its peer.
ghost use Rattle.std.specs.Prelude.{◌≡◌, true, ◌≤◌, ◌<◌, ◌-◌, ◌+◌, ◌/◌, ◌^◌, ℕ, List, length, Option, Some, None};
ghost use Rattle.std.specs.Prelude.{IfErr, IfOk, IfSome, option_map, slice_get, slice_index_or};
ghost use Rattle.book_segments.specs.Bytes.{ring};
ghost use Rattle.book_segments.specs.Options.{One, find_ao};
ghost use Rattle.book_segments.specs.Segments.{has, SYN};
ghost use Rattle.book_macs.specs.Contexts.{context_of};
ghost use Rattle.book_macs.specs.Keys.{traffic_key};
ghost use Rattle.book_keys.specs.Rows.{Row, row_limit};
ghost use Rattle.book_keys.specs.Coordination.{choose, current_after, follow};
ghost use Rattle.book_endpoint.specs.Verdicts.{judge};
ghost use Rattle.tcp_segment.specs.declared.spelling.Head.{Head};
ghost use Rattle.tcp_segment.specs.Layout.{drafted};
ghost use Rattle.tcp_segment.specs.Drafts.{Drafted, InOneBuffer};
ghost use Rattle.ao_mac.specs.Sealed.{IsSealed};
ghost use Rattle.book_macs.specs.Contexts.{bytes_of};
ghost use Rattle.ao_kdf.specs.declared.way.Way.TheVariants.{Inbound, Outbound};
ghost use Rattle.ao_check.specs.Sendings.{told};
ghost use Rattle.ao_check.specs.Bonds.{fresh, Fits, Counted};
ghost use Rattle.tcp_segment.specs.Views.{view_ao};
ghost use Rattle.ao_check.specs.Verdicts.{IsExpected, Tells, is_judged, judging, verdict_of};
ghost use Rattle.ao_check.specs.Signings.{IsToSign, has_field};

use crate::choice::{Choice, Sending};
use crate::context::outgoing;
use crate::key::{has_right_mac, seal_by};
use crate::passing::Passing;
use crate::screen::screen_segment;
use ao_base::Steps;
use ao_kdf::{Context, KeyCache};
use book_base::Pair;
use book_endpoint::{Passed, Refusal};
use key_table::Table;
use std::alloc::{AllocError, Global};
use std::marker::Model;
use std::sync::ledger::Ledger;
use tcp_segment::{Counter, Datagram, DatagramMut};

/// What one end knows of a connection: its sockets, both initial sequence numbers, the current row,
/// and the traffic keys that it derived.
#[derive(Drop)]
pub struct Association {
    pair: Pair,
    own_isn: u32,
    peer_isn: Option<u32>,
    choice: Choice,
    keys: KeyCache,
}

impl Model for Association {
    ghost use Rattle.ao_check.specs.Bonds.{Bond};

    ghost Value = { Bond };

    ghost view = { λ a. record {
      pair = a.pair;
      own = a.own_isn;
      peer = a.peer_isn;
      current = a.choice;
      keys = a.keys;
    } };
}

impl Association {
    /// An association that knows its own initial sequence number alone, with room for the keys of
    /// `rows` rows, at most 64 and no fewer than the table has.
    pub fn new(
        alloc: Global,
        table: &Table,
        pair: Pair,
        own_isn: u32,
        rows: u8,
    ) -> Result<Association, AllocError>
        requires room { length table.now.rows ≤ rows }
        requires most { rows ≤ row_limit }
        ensures fresh { IfOk result (λ a. a ≡ fresh pair own_isn rows) }
        ensures fits { IfOk result (λ a. Fits table.now.rows a) }
    {
        let keys = KeyCache::new(alloc, rows)?;
        Ok(Association {
            pair,
            own_isn,
            peer_isn: None,
            choice: Choice::new(),
            keys,
        })
    }

    /// The peer's initial sequence number becomes known; none was before.
    pub fn learn(&mut self, peer_isn: u32)
        requires { self.old.peer ≡ None }
        ensures peer { self.new ≡ record self.old { peer = Some peer_isn } }
        ensures fits { (rows : List Row) → Fits rows self.old → Fits rows self.new }
    {
        self.peer_isn = Some(peer_isn);
    }

    /// A segment from the peer that passes the check, with the TCP-AO option that was found in it, or
    /// else the first refusal that holds (RFC 5925, section 7.5). All else is as for `check`.
    pub fn check_with_option<'a, L: Ledger>(
        &mut self,
        table: &Table,
        now: u64,
        expected: Option<u64>,
        datagram: &Datagram<'a>,
        steps: &mut Steps<L>,
    ) -> Result<Passing<'a>, Refusal>
        requires fits { Fits table.now.rows self.old }
        requires source { datagram.now.source ≡ self.old.pair.remote }
        requires destination { datagram.now.destination ≡ self.old.pair.local }
        requires expected { IsExpected self.old.peer expected }
        ensures verdict { Tells table.now.rows self.old.pair datagram.now (verdict_of result)
            (judge table.now.rows self.old.pair
            (record { own_isn = self.old.own; peer_isn = self.old.peer; expected = expected }) now datagram.now) }
        ensures option { IfOk result (λ p. find_ao datagram.now.area ≡ One (view_ao p.option)) }
        ensures same { self.new ≡ record self.old { keys = self.new.keys } }
        ensures fits { Fits table.now.rows self.new }
        ensures counted { Counted self.old.keys self.new.keys
            (judging table.now.rows self.old.pair now (find_ao datagram.now.area)) (is_judged (verdict_of result))
            Inbound (has SYN datagram.now) steps.old steps.new }
    {
        let seen = match screen_segment(
            &self.pair,
            self.own_isn,
            self.peer_isn,
            table,
            now,
            expected,
            datagram,
        ) {
            Err(why) => return Err(why),
            Ok(seen) => seen,
        };
        let row = table.row(seen.row);
        if !has_right_mac(&mut self.keys, row, &seen, datagram, steps) {
            return Err(Refusal::BadMac);
        }
        Ok(Passing {
            passed: Passed {
                row: seen.row,
                number: seen.number,
                context: seen.context,
            },
            option: seen.option,
        })
    }

    /// The verdict on a segment from the peer: the first refusal that holds, else a pass (RFC 5925,
    /// section 7.5). `expected` is the number expected, at most 2^63, if a peer's initial sequence
    /// number is known. At most one step is counted: none where the segment is refused before its MAC
    /// is judged, and none for a segment without SYN whose key is kept. Nothing changes but the keys
    /// that are kept, and none of them is dropped.
    pub fn check<L: Ledger>(
        &mut self,
        table: &Table,
        now: u64,
        expected: Option<u64>,
        datagram: &Datagram<'_>,
        steps: &mut Steps<L>,
    ) -> Result<Passed, Refusal>
        requires fits { Fits table.now.rows self.old }
        requires source { datagram.now.source ≡ self.old.pair.remote }
        requires destination { datagram.now.destination ≡ self.old.pair.local }
        requires expected { IsExpected self.old.peer expected }
        ensures verdict { Tells table.now.rows self.old.pair datagram.now result
            (judge table.now.rows self.old.pair
            (record { own_isn = self.old.own; peer_isn = self.old.peer; expected = expected }) now datagram.now) }
        ensures same { self.new ≡ record self.old { keys = self.new.keys } }
        ensures fits { Fits table.now.rows self.new }
        ensures counted { Counted self.old.keys self.new.keys
            (judging table.now.rows self.old.pair now (find_ao datagram.now.area)) (is_judged result) Inbound
            (has SYN datagram.now) steps.old steps.new }
    {
        match self.check_with_option(table, now, expected, datagram, steps) {
            Ok(passing) => Ok(passing.passed),
            Err(why) => Err(why),
        }
    }

    /// The row to send with and the two ids to send: the current row while it is sendable, else the
    /// one with the greatest send start, which becomes current (RFC 5925, section 7.4). `None`
    /// exactly where no row is sendable; then nothing changes.
    pub fn choose(&mut self, table: &Table, now: u64) -> Option<Sending>
        ensures sending { result ≡ option_map told (choose self.old.current table.now.rows self.old.pair now) }
        ensures current { self.new
            ≡ record self.old {
              current = current_after self.old.current (choose self.old.current table.now.rows self.old.pair now);
            } }
        ensures low { IfSome result (λ s. 1 ≤ s.row) }
        ensures high { IfSome result (λ s. s.row ≤ length table.now.rows) }
        ensures fits { Fits table.now.rows self.old → Fits table.now.rows self.new }
    {
        self.choice.for_sending(table, &self.pair, now)
    }

    /// Follows an RNextKeyID that was heard: the sendable row with this SendID becomes current; where there is
    /// none, nothing changes (RFC 5925, sections 6.1 and 7.5).
    pub fn follow(&mut self, table: &Table, rnext: u8, now: u64)
        ensures current { self.new
            ≡ record self.old { current = follow self.old.current table.now.rows self.old.pair rnext now } }
        ensures fits { Fits table.now.rows self.old → Fits table.now.rows self.new }
    {
        self.choice.follow(table, &self.pair, rnext, now);
    }

    /// Seals a segment to the peer under the key of the row, with the extension of its number, and
    /// gives the context of the key (RFC 5925, section 7.4). The segment has the sockets of the
    /// association and a MAC field of the row's length; it has SYN without ACK, or the peer's initial
    /// sequence number is known. Steps and kept keys are as for `check`.
    pub fn sign<L: Ledger>(
        &mut self,
        table: &Table,
        sending: &Sending,
        number: u64,
        datagram: &mut DatagramMut<'_>,
        steps: &mut Steps<L>,
    ) -> Context
        requires fits { Fits table.now.rows self.old }
        requires low { 1 ≤ sending.now.row }
        requires high { sending.now.row ≤ length table.now.rows }
        requires draft { IsToSign datagram.old self.old }
        requires field { (d : Row) → has_field datagram.old (slice_index_or table.now.rows (sending.now.row - 1) d) }
        requires number { number ≤ 2 ^ 63 }
        ensures same_buffer { InOneBuffer datagram.old datagram.new }
        ensures context { (h : Head) (old payload rest : List ℕ) → Drafted datagram.old h old payload rest
            → context_of (drafted h old payload) (Some self.old.own) self.old.peer ≡ Some (bytes_of result) }
        ensures sealed { (h : Head) (old payload rest : List ℕ) (r : Row) → Drafted datagram.old h old payload rest
            → slice_get table.now.rows (sending.now.row - 1) ≡ Some r
            → IsSealed datagram.new h old payload rest r.algorithm (traffic_key r.algorithm r.master (bytes_of result))
            (number / ring) r.with_options }
        ensures same { self.new ≡ record self.old { keys = self.new.keys } }
        ensures fits { Fits table.now.rows self.new }
        ensures most { steps.new ≤ steps.old + 1 }
        ensures counted { (h : Head) (old payload rest : List ℕ) → Drafted datagram.old h old payload rest
            → Counted self.old.keys self.new.keys (Some sending.now.row) true Outbound
            (has SYN (drafted h old payload)) steps.old steps.new }
    {
        let row = table.row(sending.row);
        let plan = outgoing(&datagram.as_datagram(), self.own_isn, self.peer_isn);
        seal_by(
            &mut self.keys,
            sending.row,
            row,
            &plan,
            Counter::of(number).extension,
            datagram,
            steps,
        );
        plan.context
    }
}
