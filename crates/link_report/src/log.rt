//! Everything that was made, and how many forgeries were counted.
ghost use Rattle.std.specs.Prelude.{◌≡◌, ◌↔◌, ◌+◌, ◌<◌, ◌≤◌, ℕ, suc, List, [], ◌∷◌, length, Option, Some, None};
ghost use Rattle.std.specs.Prelude.{IsTrue, true, MatchOption, OnOk};
ghost use Rattle.book_endpoint.specs.Verdicts.{Finding};
ghost use Rattle.book_segments.specs.Options.{One, find_ao};
ghost use Rattle.book_segments.specs.Segments.{bit_of};
ghost use Rattle.book_segments.specs.Spelling.{AreBytes, Fits};
ghost use Rattle.book_link.specs.Worlds.{Made, Came, Happening, Making, Coming, segment_named, segments};
ghost use Rattle.book_link.specs.Worlds.{forged as forged_by, forgeries, was_made};
ghost use Rattle.tcp_segment.specs.Views.{view_ao};
ghost use Rattle.link_report.specs.Entries.{IsEntry, IsMade, PassesUnder};
ghost use Rattle.link_report.specs.Numbers.{AreLinked};

use crate::accounts::{accounts_for, sought};
use crate::entry::Entry;
use crate::kept::Kept;
use ao_check::Passing;
use book_base::{Bytes, End};
use book_keys::LONGEST_MASTER_KEY;
use book_macs::Context;
use key_table::Row;
use std::alloc::{AllocError, Global};
use std::collections::HashMap;
use tcp_segment::Datagram;

/// What the proof of `push` asks of a datagram's bytes: each is below 256. It does nothing.
fn see_bytes(bytes: &[u8])
    ensures { AreBytes bytes.now }
{
    let _length = bytes.len();
}

/// All segments that were made on a link, each under its name from 1, and how many of those that
/// passed at an end the other end had not made.
#[derive(Drop)]
pub struct Log {
    kept: Vec<Kept>,
    /// The place of the last entry with each number.
    latest: HashMap<u64, u32>,
    /// Memory for the next entry's master key.
    master: Option<Vec<u8>>,
    forgeries: u32,
    ghost linked: { AreLinked kept.items latest },
}

impl Log {
    ghost use Rattle.link_report.specs.Logs.{HasRoom, StandsLog, MadeBy, forgery_count, made_count};

    /// A log of a link on which nothing happened yet. It takes no memory.
    pub fn new(alloc: Global) -> Log
        ensures stands { StandsLog result [] }
        ensures made { made_count result ≡ 0 }
        ensures forgeries { forgery_count result ≡ 0 }
    {
        Log {
            kept: Vec::new(alloc),
            latest: HashMap::new(alloc),
            master: None,
            forgeries: 0,
        }
    }

    /// Takes the memory for one more entry. Whatever the answer, the log stands for what it stood for.
    pub fn reserve(&mut self, alloc: Global) -> Result<(), AllocError>
        ensures room { OnOk result (HasRoom self.new) }
        ensures stands { (history : List Happening) → StandsLog self.old history → StandsLog self.new history }
        ensures made { made_count self.new ≡ made_count self.old }
        ensures forgeries { forgery_count self.new ≡ forgery_count self.old }
    {
        self.master = Some(Vec::with_capacity(alloc, LONGEST_MASTER_KEY)?);
        self.kept.reserve(1)?;
        self.latest.reserve(1)
    }

    /// The bytes of a key, in the memory that was taken for them.
    fn master_of(&mut self, row: &Row) -> Bytes
        requires { HasRoom self.old }
        ensures master { result ≡ row.now.master }
        ensures kept { self.new.kept ≡ self.old.kept }
        ensures latest { self.new.latest ≡ self.old.latest }
        ensures forgeries { self.new.forgeries ≡ self.old.forgeries }
    {
        let mut master = self.master.take().unwrap();
        let extended: Result<_, _> = master.extend_from_slice(row.master());
        extended.unwrap();
        Bytes::from_vec(master)
    }

    /// Keeps a segment that was made by an end with this number, under this row and with this context,
    /// and answers its name. There is room for it, and fewer than 2^32 - 1 segments are kept.
    pub fn push(
        &mut self,
        maker: End,
        number: u64,
        row: &Row,
        context: Context,
        bytes: Bytes,
    ) -> u32
        requires room { HasRoom self.old }
        requires few { made_count self.old < 4294967295 }
        ensures stands { (history : List Happening) (m : Made) → StandsLog self.old history
            → IsMade maker number row.now context bytes m
            → m.name ≡ suc (segments history) → StandsLog self.new (Making m ∷ history) }
        ensures name { result ≡ made_count self.old + 1 }
        ensures made { made_count self.new ≡ made_count self.old + 1 }
        ensures forgeries { forgery_count self.new ≡ forgery_count self.old }
    {
        see_bytes(bytes.as_slice());
        let entry = Entry {
            maker,
            number,
            algorithm: row.algorithm(),
            master: self.master_of(row),
            with_options: row.with_options(),
            context,
            bytes,
        };
        let place = self.kept.len() as u32;
        let inserted: Result<_, _> = self.latest.insert(number, place);
        let earlier = inserted.unwrap();
        let pushed: Result<_, _> = self.kept.push(Kept { entry, earlier });
        pushed.unwrap();
        place + 1
    }

    /// How many segments were made. Each has the next name from 1; fewer than 2^32 are kept.
    pub fn made(&self) -> u32
        requires { made_count self.now < 4294967296 }
        ensures count { result ≡ made_count self.now }
        ensures segments { (history : List Happening) → StandsLog self.now history → result ≡ segments history }
    {
        self.kept.len() as u32
    }

    /// The segment of this name; none where no segment has it.
    pub fn segment(&self, name: u32) -> Option<&Entry>
        ensures { (history : List Happening) → StandsLog self.now history
            → MatchOption result (segment_named name history ≡ None)
            (λ k. (m : Made) × (segment_named name history ≡ Some m) × IsEntry k.now m) }
    {
        if name == 0 {
            return None;
        }
        match self.kept.as_slice().get(name as usize - 1) {
            Some(kept) => Some(&kept.entry),
            None => None,
        }
    }

    /// The end that made the segment of this name, which is from 1 to `made`.
    pub fn maker(&self, name: u32) -> End
        requires low { 1 ≤ name }
        requires high { name ≤ made_count self.now }
        ensures { (history : List Happening) → StandsLog self.now history → MadeBy result (segment_named name history) }
    {
        self.kept.as_slice()[name as usize - 1].entry.maker
    }

    /// How many segments passed at an end although the other end had not made them.
    pub fn forgeries(&self) -> u32
        ensures count { result ≡ forgery_count self.now }
        ensures forgeries { (history : List Happening) → StandsLog self.now history → result ≡ forgeries history }
    {
        self.forgeries
    }

    /// Whether the other end made what passed at an end: only the entries with the number that it
    /// would have are looked at.
    fn was_made(&self, at: End, datagram: &Datagram<'_>, row: &Row, passing: &Passing<'_>) -> bool
        requires fits { Fits datagram.now }
        requires option { find_ao datagram.now.area ≡ One (view_ao passing.now.option) }
        ensures { (history : List Happening) (f : Finding) → StandsLog self.now history
            → PassesUnder row.now datagram.now passing.now.passed.number passing.now.passed.context f
            → result ≡ was_made at f history }
    {
        let kept = self.kept.as_slice();
        let number = sought(passing.passed.number, datagram);
        let mut next = self.latest.get(&number).copied();
        while let Some(place) = next {
            let candidate = &kept[place as usize];
            if accounts_for(&candidate.entry, at, datagram, row, passing) {
                return true;
            }
            next = candidate.earlier;
        }
        false
    }

    /// Whether the segment of this name accounts for what passed at an end.
    fn is_accounted_by(
        &self,
        name: u32,
        at: End,
        datagram: &Datagram<'_>,
        row: &Row,
        passing: &Passing<'_>,
    ) -> bool
        requires fits { Fits datagram.now }
        requires option { find_ao datagram.now.area ≡ One (view_ao passing.now.option) }
        ensures { (history : List Happening) (f : Finding) → StandsLog self.now history
            → PassesUnder row.now datagram.now passing.now.passed.number passing.now.passed.context f → IsTrue result
            → true ≡ was_made at f history }
    {
        match self.segment(name) {
            None => false,
            Some(entry) => {
                if entry.number != sought(passing.passed.number, datagram) {
                    return false;
                }
                accounts_for(entry, at, datagram, row, passing)
            }
        }
    }

    /// Whether the other end made what passed at an end. The segment of this name, if there is one, is
    /// looked at first: thousands of entries may have the number of a copy's segment.
    fn was_made_as(
        &self,
        name: Option<u32>,
        at: End,
        datagram: &Datagram<'_>,
        row: &Row,
        passing: &Passing<'_>,
    ) -> bool
        requires fits { Fits datagram.now }
        requires option { find_ao datagram.now.area ≡ One (view_ao passing.now.option) }
        ensures { (history : List Happening) (f : Finding) → StandsLog self.now history
            → PassesUnder row.now datagram.now passing.now.passed.number passing.now.passed.context f
            → result ≡ was_made at f history }
    {
        match name {
            None => self.was_made(at, datagram, row, passing),
            Some(name) => {
                if self.is_accounted_by(name, at, datagram, row, passing) {
                    return true;
                }
                self.was_made(at, datagram, row, passing)
            }
        }
    }

    /// Whether a datagram that passed at an end under a row, with what the check found, is a forgery: the
    /// other end had made no segment with the same algorithm, master key, context and MAC input. Of a copy,
    /// `name` is the segment's that it is one of, which makes the answer no other, but mostly quick.
    pub fn is_forged(
        &self,
        at: End,
        name: Option<u32>,
        datagram: &Datagram<'_>,
        row: &Row,
        passing: &Passing<'_>,
    ) -> bool
        requires option { find_ao datagram.now.area ≡ One (view_ao passing.now.option) }
        ensures { (history : List Happening) (f : Finding) → StandsLog self.now history
            → PassesUnder row.now datagram.now passing.now.passed.number passing.now.passed.context f
            → forged_by at (Some f) history ≡ bit_of result }
    {
        // A call on the datagram shows that its fields are in range.
        let _length = datagram.length();
        !self.was_made_as(name, at, datagram, row, passing)
    }

    /// Takes notice of a datagram that came to an end, and whether it is a forgery. Fewer than 2^32 - 1
    /// forgeries are counted.
    pub fn count(&mut self, forged: bool)
        requires { forgery_count self.old < 4294967295 }
        ensures stands { (history : List Happening) (r : Came) → StandsLog self.old history
            → forged_by r.at r.passed history ≡ bit_of forged
            → StandsLog self.new (Coming r ∷ history) }
        ensures made { made_count self.new ≡ made_count self.old }
        ensures most { forgery_count self.new ≤ forgery_count self.old + 1 }
    {
        if forged {
            self.forgeries += 1;
        }
    }
}
