//! A shim: the pairs of sockets whose datagrams pass through.
ghost use Rattle.std.specs.Prelude.{◌≡◌, ◌+◌, ◌≤◌, ◌^◌, [], length, take, slice_get, IfOk, IfErr, OnOk, OnErr};
ghost use Rattle.book_shim.specs.Quoting.{is_ignored, notice};
ghost use Rattle.shim_pairs.specs.Counting.{arriving_counted, ignored_counted, leaving_counted, no_counters};
ghost use Rattle.shim_pairs.specs.Holdings.{IsRefused, carried, restored, rows_for, saved_at};
ghost use Rattle.shim_pairs.specs.Passing.{Enters, IsUnsent, IsUntaken, Leaves, Stays};

use crate::answer::{PairUnsent, PairUntaken, Passed};
use crate::copy::{MOST_BYTES, copy_datagram};
use crate::counters::{Counters, arriving_counted, ignored_counted, leaving_counted, no_counters};
use crate::notices::read_notice;
use crate::pairs::Pairs;
use crate::saved::{RestoreRefusal, Saved};
use ao_base::Steps;
use book_shim::{Unsent, Untaken};
use key_table::Tables;
use std::alloc::{AllocError, Global};
use std::marker::Model;
use std::sync::ledger::Ledger;

/// The pairs of sockets whose datagrams pass through: the key tables of the own addresses, and for each pair
/// of which something passed its guard. Seen as these tables, how many pairs are held at most, the entries
/// in the order of pairs, and what was counted.
#[derive(Drop)]
pub struct Shim {
    pairs: Pairs,
    copy: Vec<u8>,
    counters: Counters,
}

impl Model for Shim {
    ghost use Rattle.shim_pairs.specs.Holdings.{ShimState};

    ghost Value = { ShimState };

    ghost view = { λ s. record { held = s.pairs; counters = s.counters } };

    ghost use Rattle.std.specs.Prelude.{◌≡◌, length};

    ghost invariant = { λ s. length s.copy.items ≡ 65575 };
}

impl Shim {
    /// A shim that holds nothing, and at most `most` pairs, at least 1, and has counted nothing. The address
    /// of each node of the tables is an own one. It takes all its memory: for each pair and two more 600 bytes
    /// for each row of the largest table, and 65,575 bytes; `AllocError` is want of memory.
    pub fn new(alloc: Global, tables: Tables, most: u16) -> Result<Shim, AllocError>
        requires { 1 ≤ most }
        ensures { IfOk result
            (λ s. s ≡ record { held = record { tables = tables; most = most; entries = [] }; counters = no_counters }) }
    {
        let pairs = Pairs::new(alloc, tables, usize::from(most))?;
        let copy = vec![in alloc; 0; MOST_BYTES]?;
        Ok(Shim {
            pairs,
            copy,
            counters: no_counters(),
        })
    }

    /// How many pairs are held.
    pub fn pairs(&self) -> usize
        ensures { result ≡ length self.now.held.entries }
    {
        self.pairs.len()
    }

    /// What was counted since the shim was made.
    pub fn counters(&self) -> Counters
        ensures { result ≡ self.now.counters }
    {
        self.counters
    }

    /// Seals a datagram of the own kernel, the first `count` bytes of `buffer`, under the key of the row to
    /// send with (RFC 5925, section 7.4), by the table of its source address: what is sent in its place stands
    /// there, and what is behind it stays; else it says why nothing is sent, and then no pair and no byte has
    /// changed. A pair of which nothing is held comes about only where its datagram goes on. It adds one to
    /// one counter.
    ///
    /// `buffer` has at least 20 bytes more. At most one traffic key is derived, and no memory is taken.
    pub fn outbound<L: Ledger>(
        &mut self,
        now: u64,
        buffer: &mut [u8],
        count: usize,
        steps: &mut Steps<L>,
    ) -> Result<Passed, PairUnsent>
        requires room { count + 20 ≤ length buffer.old }
        ensures sent { IfOk result (λ p. Leaves now self.old.held self.new.held (take count buffer.old) buffer.old
            buffer.new p) }
        ensures refused { IfErr result (λ why. IsUnsent self.old.held now (take count buffer.old) why) }
        ensures unchanged { OnErr result ((self.new.held ≡ self.old.held) × (buffer.new ≡ buffer.old)) }
        ensures counted { self.new.counters ≡ leaving_counted result self.old.counters }
        ensures most { steps.new ≤ steps.old + 1 }
    {
        let answer = match copy_datagram(&buffer[..count], &mut self.copy) {
            Err(fault) => Err(PairUnsent::Unsent(Unsent::Bad(fault))),
            Ok(whole) => self.pairs.outbound(now, &self.copy[..whole], buffer, steps),
        };
        self.counters = leaving_counted(answer, self.counters);
        answer
    }

    /// Opens a datagram from the network, the first `count` bytes of `buffer`, which must pass the check (RFC
    /// 5925, section 7.5), by the table of its destination address: what the own kernel takes in its place,
    /// without TCP-AO, stands there, and what is behind it stays; else it says why nothing is taken, and then
    /// nothing has changed but traffic keys that are kept. Of a pair of which nothing is held nothing is kept
    /// either: a SYN that passes may be a replay, and the own kernel's answer tells both numbers. It adds one
    /// to one counter.
    ///
    /// `buffer` has at least 20 bytes more; `mtu` is that of the device over which the datagram came. At most
    /// one traffic key is derived, and no memory is taken.
    pub fn inbound<L: Ledger>(
        &mut self,
        mtu: u16,
        now: u64,
        buffer: &mut [u8],
        count: usize,
        steps: &mut Steps<L>,
    ) -> Result<Passed, PairUntaken>
        requires room { count + 20 ≤ length buffer.old }
        ensures taken { IfOk result (λ p. Enters now mtu self.old.held self.new.held (take count buffer.old) buffer.old
            buffer.new p) }
        ensures refused { IfErr result (λ why. IsUntaken self.old.held now mtu (take count buffer.old) why) }
        ensures stays { OnErr result (Stays self.old.held self.new.held) }
        ensures buffer { OnErr result (buffer.new ≡ buffer.old) }
        ensures counted { self.new.counters ≡ arriving_counted result self.old.counters }
        ensures most { steps.new ≤ steps.old + 1 }
    {
        let answer = match copy_datagram(&buffer[..count], &mut self.copy) {
            Err(fault) => Err(PairUntaken::Untaken(Untaken::Bad(fault))),
            Ok(whole) => self
                .pairs
                .inbound(mtu, now, &self.copy[..whole], buffer, steps),
        };
        self.counters = arriving_counted(answer, self.counters);
        answer
    }

    /// Whether a datagram from the network that came as ICMP is to be kept from the own kernel: an error that quotes
    /// a segment of a pair for which some row is, at whatever time (RFC 5925, section 7.8), and whatever can't be
    /// read as far as the ports that it quotes, a fragment too. Then it adds one to one counter. All else stays.
    ///
    /// No checksum is judged, and no memory is taken.
    pub fn ignores(&mut self, bytes: &[u8]) -> bool
        ensures answer { result ≡ is_ignored (rows_for self.old.held) (notice bytes.now) }
        ensures held { self.new.held ≡ self.old.held }
        ensures counted { self.new.counters ≡ ignored_counted result self.old.counters }
    {
        let ignored = self.pairs.ignores(read_notice(bytes));
        self.counters = ignored_counted(ignored, self.counters);
        ignored
    }

    /// What is saved of the pair at this place, from 0, in the order of pairs; none where it has no
    /// connection, and none from their end on.
    pub fn saved(&self, at: usize) -> Option<Saved>
        ensures { result ≡ saved_at self.now.held.tables (slice_get self.now.held.entries at) }
    {
        self.pairs.saved(at)
    }

    /// Goes on at `now`, in seconds since 1970, with a connection that was saved, whose numbers are at most
    /// 2^63. Its current row is the one that sends under its KeyID then, and else it is chosen anew. Where as
    /// many pairs are held as there may be, the one of which nothing passed for longest goes. `Held` exactly
    /// where the pair is held, else `NoNode` exactly where no node has its own address; after these nothing
    /// has changed. It counts nothing.
    pub fn restore(&mut self, now: u64, saved: &Saved) -> Result<(), RestoreRefusal>
        requires sent { saved.now.sent ≤ 2 ^ 63 }
        requires heard { saved.now.heard ≤ 2 ^ 63 }
        ensures restored { OnOk result (self.new.held ≡ restored self.old.held now saved.now) }
        ensures refused { IsRefused self.old.held saved.now.pair result }
        ensures unchanged { OnErr result (self.new ≡ self.old) }
        ensures counters { self.new.counters ≡ self.old.counters }
    {
        self.pairs.restore(now, saved)
    }

    /// Goes on at `now`, in seconds since 1970, with the tables of another key file: each connection that is held
    /// is brought back, in the order of pairs, as `restore` does of what `saved` tells. One whose own address no
    /// node has any more is let go, and so is a pair without a connection. The counters go on.
    ///
    /// It takes all its memory anew, as `new` does for as many pairs, before it frees the old one; on `AllocError`,
    /// want of memory, nothing has changed. No traffic key is derived.
    pub fn rekey(&mut self, alloc: Global, now: u64, tables: Tables) -> Result<(), AllocError>
        ensures carried { OnOk result (self.new.held ≡ carried now self.old.held tables) }
        ensures unchanged { OnErr result (self.new ≡ self.old) }
        ensures counters { self.new.counters ≡ self.old.counters }
    {
        match self.pairs.carried(alloc, now, tables) {
            Err(why) => Err(why),
            Ok(pairs) => {
                self.pairs = pairs;
                Ok(())
            }
        }
    }
}
