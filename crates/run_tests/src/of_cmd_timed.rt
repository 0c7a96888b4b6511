//! The timers that a run was lent, and how many plain events a run has at most.
use book_base::{Address, Algorithm};
use both_ends::BothEnds;
use cmd_link::{TimedRun, answer_timed, run_timed};
use command_report::Stop;
use key_table::Tables;
use link_script::read_timed;
use link_world::Setup;
use stack_timers::Rto;
use std::alloc::{AllocError, Global};
use std::test::Fail;

const HEAD: &[u8] = b"aotcp-link 1
a 10.0.0.1 1000
b 10.0.0.2 2000
start a 100 200
start b 200 100
give a 41
send a
";

/// The byte is acknowledged after two seconds.
const SAMPLED: &[u8] = b"deliver b 1
send b
clock a 2
deliver a 2
";

// Functions without clauses: a goal then names the text and does not spell it.
fn head() -> &'static [u8] {
    HEAD
}

fn sampled() -> &'static [u8] {
    SAMPLED
}

fn tables(alloc: Global) -> Result<Tables, AllocError> {
    Tables::shared(
        alloc,
        Address::V4([10, 0, 0, 1]),
        Address::V4([10, 0, 0, 2]),
        Algorithm::HmacSha1,
        [11; 20].as_slice(),
    )
}

/// Whether a link file has a report, with these timers.
fn run(alloc: Global, text: &[u8], timers: &mut BothEnds<Rto>) -> Result<bool, Fail> {
    let script = read_timed(alloc, text)?;
    let setup = Setup {
        tables: tables(alloc)?,
        a: script.a,
        b: script.b,
    };
    match run_timed(alloc, setup, &script.events, timers)? {
        TimedRun::Report(..) => Ok(true),
        TimedRun::TooMany => Ok(false),
    }
}

/// A byte that is sent, and what follows.
fn byte_and(alloc: Global, events: &[u8]) -> Result<Vec<u8>, AllocError> {
    let mut text = Vec::new(alloc);
    text.extend_from_slice(head())?;
    text.extend_from_slice(events)?;
    Ok(text)
}

#[test]
fn a_sample_makes_the_value(rt: HostRuntime) -> Result<(), Fail> {
    let text = byte_and(rt.alloc(), sampled())?;
    let mut timers = BothEnds {
        a: Rto::new(),
        b: Rto::new(),
    };
    assert!(rt; run(rt.alloc(), text.as_slice(), &mut timers)?);
    assert!(rt; timers.a.value() == 6000 && timers.b.value() == 1000);
    Ok(())
}

/// Two hours of waits, which make 250 plain events, and so many others.
fn waits_and(alloc: Global, others: usize) -> Result<Vec<u8>, AllocError> {
    let mut text = byte_and(alloc, b"wait a 3600\nwait a 3600\n")?;
    for _other in 0..others {
        text.extend_from_slice(b"take b 0\n".as_slice())?;
    }
    Ok(text)
}

/// Whether a link file has a report; else whether its plain events are too many.
fn is_reported(alloc: Global, text: &[u8]) -> Result<Option<bool>, AllocError> {
    match answer_timed(alloc, tables(alloc)?, text) {
        Ok(_) => Ok(Some(true)),
        Err(Stop::TooManyEvents) => Ok(Some(false)),
        Err(_) => Ok(None),
    }
}

#[test]
fn at_most_20_000_plain_events_are_run(rt: HostRuntime) -> Result<(), Fail> {
    let most = waits_and(rt.alloc(), 19_746)?;
    assert!(rt; is_reported(rt.alloc(), most.as_slice())? == Some(true));
    let more = waits_and(rt.alloc(), 19_747)?;
    assert!(rt; is_reported(rt.alloc(), more.as_slice())? == Some(false));
    Ok(())
}
