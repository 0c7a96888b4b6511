//! Whether an entry accounts for a segment that passed.
ghost use Rattle.std.specs.Prelude.{◌≡◌, ◌↔◌, ◌+◌, ◌*◌, ◌/◌, ◌^◌, ◌<◌, IsTrue};
ghost use Rattle.book_segments.specs.Options.{One, find_ao};
ghost use Rattle.book_segments.specs.Spelling.{Fits};
ghost use Rattle.book_segments.specs.Segments.{Read, reading};
ghost use Rattle.book_endpoint.specs.Verdicts.{Finding};
ghost use Rattle.book_keys.specs.Rows.{Row};
ghost use Rattle.book_link.specs.Worlds.{Made, accounts_for};
ghost use Rattle.tcp_segment.specs.Views.{view_ao};
ghost use Rattle.ao_mac.specs.Macs.{IsSameInput};
ghost use Rattle.link_report.specs.Entries.{IsEntry, PassesUnder, entry_key};
ghost use Rattle.book_endpoint.specs.Verdicts.{key_of};

use crate::context::is_same_context;
use crate::entry::Entry;
use ao_check::Passing;
use ao_mac::{MacInput, same_input};
use book_base::End;
use key_table::Row;
use tcp_segment::{AoFound, Datagram, read_datagram};

/// Whether the MAC of a segment that was made is computed over these bytes, with the same sequence
/// number extension. Its option is looked for.
fn has_input(made: &Datagram<'_>, with_options: bool, input: &MacInput<'_>) -> bool
    requires { find_ao input.now.datagram.now.area ≡ One (view_ao input.now.option) }
    ensures { IsSameInput result input.now.sne input.now.datagram.now input.now.with_options
        input.now.sne made.now with_options }
{
    let options = made.options();
    match options.find_ao() {
        AoFound::One(option) => {
            let own = MacInput {
                sne: input.sne,
                datagram: made,
                option,
                with_options,
            };
            same_input(input, &own)
        }
        AoFound::Absent => false,
        AoFound::Two => false,
        AoFound::WithMd5 => false,
    }
}

/// Whether an entry has the key of a row.
fn has_key_of(entry: &Entry, row: &Row) -> bool
    ensures { IsTrue result ↔ (entry_key entry.now ≡ key_of row.now) }
{
    if entry.algorithm != row.algorithm() {
        return false;
    }
    entry.master.as_slice() == row.master()
}

/// The number that an entry has whose MAC is computed over the same bytes as that of a segment that
/// passed: its extension is that of the segment's number, and the sequence field is the segment's.
pub(crate) fn sought(number: u64, datagram: &Datagram<'_>) -> u64
    ensures number { result ≡ number / 4294967296 * 4294967296 + datagram.now.sequence }
    ensures small { number < 2 ^ 64 }
{
    (number >> 32 << 32) + u64::from(datagram.sequence())
}

/// Whether an entry of the sought number accounts for what passed at an end: the other end made it,
/// under the same key and context, and its MAC is computed over the same bytes.
pub(crate) fn accounts_for(
    entry: &Entry,
    at: End,
    datagram: &Datagram<'_>,
    row: &Row,
    passing: &Passing<'_>,
) -> bool
    requires number { entry.now.number ≡ passing.now.passed.number / 4294967296 * 4294967296 + datagram.now.sequence }
    requires fits { Fits datagram.now }
    requires option { find_ao datagram.now.area ≡ One (view_ao passing.now.option) }
    ensures { (f : Finding) (m : Made) → IsEntry entry.now m
        → PassesUnder row.now datagram.now passing.now.passed.number passing.now.passed.context f
        → result ≡ accounts_for at f m }
{
    if entry.maker == at {
        return false;
    }
    if !has_key_of(entry, row) {
        return false;
    }
    if !is_same_context(&entry.context, &passing.passed.context) {
        return false;
    }
    let input = MacInput {
        sne: (passing.passed.number >> 32) as u32,
        datagram,
        option: passing.option,
        with_options: row.with_options(),
    };
    match read_datagram(entry.bytes.as_slice()) {
        Ok(made) => has_input(&made, entry.with_options, &input),
        // What was made can be read; of an entry of other bytes the contract says nothing.
        Err(_) => false,
    }
}
