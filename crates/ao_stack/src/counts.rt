//! What happened adds to counters and tallies.
ghost use Rattle.std.specs.Prelude.{◌≡◌};
ghost use Rattle.book_stack.specs.Counters.{arrival_counted, knock_counted, next_count, no_counters, no_tally};
ghost use Rattle.book_stack.specs.Counters.{refusal_counted, sending_counted, stray_counted};
ghost use Rattle.ao_stack.specs.Counts.{changed_by, counted_by};
ghost use Rattle.ao_stack.specs.Turns.{act_of};

use crate::key_ids;
use book_endpoint::{Arrival, Refusal};
use book_link::Transmission;
use book_stack::{Counters, KeyIds, KeyIdsSeen, Tally};

/// What happened at a connection.
#[derive(Clone, Copy)]
pub(crate) enum Happened {
    /// A segment that moved the connection on, or didn't, with these key ids came, and was answered so.
    Heard(bool, Arrival, Option<KeyIds>),
    /// A segment with these key ids was sent.
    Sent(Transmission, Option<KeyIds>),
    /// It begins, or doesn't: its tally becomes this one.
    Become(Tally),
}

/// Nothing was counted.
pub(crate) fn no_counters() -> Counters
    ensures { result ≡ no_counters }
{
    Counters {
        passed: 0,
        bad: 0,
        foreign: 0,
        checksum: 0,
        closed: 0,
        no_ao: 0,
        two_ao: 0,
        with_md5: 0,
        no_tuple: 0,
        expired: 0,
        mac_length: 0,
        no_context: 0,
        range: 0,
        bad_mac: 0,
        no_connection: 0,
        knocks: 0,
        sent: 0,
        sent_again: 0,
    }
}

/// The tally of a connection that begins.
pub(crate) fn no_tally() -> Tally
    ensures { result ≡ no_tally }
{
    Tally {
        counters: no_counters(),
        ids: KeyIdsSeen {
            sent: None,
            heard: None,
        },
    }
}

/// One more, up to the greatest number.
fn one_more(count: u64) -> u64
    ensures { result ≡ next_count count }
{
    count.saturating_add(1)
}

/// One segment more was refused by the check, for this reason.
pub(crate) fn refused(counters: Counters, why: Refusal) -> Counters
    ensures { result ≡ refusal_counted why counters }
{
    match why {
        Refusal::NoAo => Counters {
            no_ao: one_more(counters.no_ao),
            ..counters
        },
        Refusal::TwoAo => Counters {
            two_ao: one_more(counters.two_ao),
            ..counters
        },
        Refusal::WithMd5 => Counters {
            with_md5: one_more(counters.with_md5),
            ..counters
        },
        Refusal::NoTuple => Counters {
            no_tuple: one_more(counters.no_tuple),
            ..counters
        },
        Refusal::Expired => Counters {
            expired: one_more(counters.expired),
            ..counters
        },
        Refusal::MacLength => Counters {
            mac_length: one_more(counters.mac_length),
            ..counters
        },
        Refusal::NoContext => Counters {
            no_context: one_more(counters.no_context),
            ..counters
        },
        Refusal::Range => Counters {
            range: one_more(counters.range),
            ..counters
        },
        Refusal::BadMac => Counters {
            bad_mac: one_more(counters.bad_mac),
            ..counters
        },
    }
}

/// One segment more passed the check.
fn passed(counters: Counters) -> Counters
    ensures { result ≡ record counters { passed = next_count counters.passed } }
{
    Counters {
        passed: one_more(counters.passed),
        ..counters
    }
}

/// One datagram more was answered so.
pub(crate) fn arrived(counters: Counters, arrival: Arrival) -> Counters
    ensures { result ≡ arrival_counted arrival counters }
{
    match arrival {
        Arrival::Bad(_) => Counters {
            bad: one_more(counters.bad),
            ..counters
        },
        Arrival::Foreign => Counters {
            foreign: one_more(counters.foreign),
            ..counters
        },
        Arrival::Checksum => Counters {
            checksum: one_more(counters.checksum),
            ..counters
        },
        Arrival::Closed => Counters {
            closed: one_more(counters.closed),
            ..counters
        },
        Arrival::Refused(why) => refused(counters, why),
        Arrival::Unexpected => passed(counters),
        Arrival::Window => passed(counters),
        Arrival::Challenge => passed(counters),
        Arrival::NoAck => passed(counters),
        Arrival::BadAck => passed(counters),
        Arrival::TooManyRuns => passed(counters),
        Arrival::Reset => passed(counters),
        Arrival::Taken => passed(counters),
    }
}

/// One segment more was sent.
fn sent(counters: Counters, kind: Transmission) -> Counters
    ensures { result ≡ sending_counted (act_of kind) counters }
{
    match kind {
        Transmission::New => Counters {
            sent: one_more(counters.sent),
            ..counters
        },
        Transmission::Again => Counters {
            sent_again: one_more(counters.sent_again),
            ..counters
        },
    }
}

/// One datagram more came for a pair that isn't held.
pub(crate) fn stray(counters: Counters) -> Counters
    ensures { result ≡ stray_counted counters }
{
    Counters {
        no_connection: one_more(counters.no_connection),
        ..counters
    }
}

/// One SYN more knocked.
pub(crate) fn knocked(counters: Counters) -> Counters
    ensures { result ≡ knock_counted counters }
{
    Counters {
        knocks: one_more(counters.knocks),
        ..counters
    }
}

/// The counters of the node once something happened at a connection.
pub(crate) fn counted(counters: Counters, what: Happened) -> Counters
    ensures { result ≡ counted_by what counters }
{
    match what {
        Happened::Heard(_, arrival, _) => arrived(counters, arrival),
        Happened::Sent(kind, _) => sent(counters, kind),
        Happened::Become(_) => counters,
    }
}

/// The tally of a connection once something happened at it.
pub(crate) fn changed(tally: Tally, what: Happened) -> Tally
    ensures { result ≡ changed_by what tally }
{
    match what {
        Happened::Heard(moved, arrival, ids) => Tally {
            counters: arrived(tally.counters, arrival),
            ids: key_ids::heard(tally.ids, moved, arrival, ids),
        },
        Happened::Sent(kind, ids) => Tally {
            counters: sent(tally.counters, kind),
            ids: key_ids::sent(tally.ids, ids),
        },
        Happened::Become(other) => other,
    }
}
