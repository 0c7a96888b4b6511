//! The readers that a run was lent, over the key that both ends of a link share.
ghost use Rattle.std.specs.Prelude.{◌≡◌};
ghost use Rattle.bgp_messages.specs.Readers.{new_reading};

use bgp_messages::BgpReader;
use book_base::{Address, Algorithm};
use both_ends::BothEnds;
use cmd_link::run_bgp;
use key_table::Tables;
use link_script::{KeysFrom, read_script};
use link_world::Setup;
use std::alloc::{AllocError, Global};
use std::test::Fail;

const KEEPALIVE: &[u8] = b"aotcp-link 1
a 10.0.0.1 1000
b 10.0.0.2 2000
start a 100 200
start b 200 100
give a ffffffffffffffffffffffffffffffff001304
send a
deliver b 1
take b 10
take b 100
";

const SPOKEN: &[u8] = b"7 message b 1 type 4 length 19
session a 1 isn 100 peer 200 established given 19 delivered 0 open
session b 1 isn 200 peer 100 established given 0 delivered 19 open
segments 1 forgeries 0
";

// Functions without clauses: a goal then names the text and does not spell it.
fn keepalive() -> &'static [u8] {
    KEEPALIVE
}

fn is_spoken(text: &[u8]) -> bool {
    text == SPOKEN
}

// The tables of 10.0.0.1 and 10.0.0.2, which share a key.
fn shared_key(alloc: Global) -> Result<Tables, AllocError> {
    let a = Address::V4([10, 0, 0, 1]);
    let b = Address::V4([10, 0, 0, 2]);
    Tables::shared(alloc, a, b, Algorithm::HmacSha1, [11; 20].as_slice())
}

/// Runs a link file with these readers: whether a KEEPALIVE is told, and neither forgery nor fault.
fn run(alloc: Global, text: &[u8], readers: &mut BothEnds<BgpReader>) -> Result<bool, Fail>
    requires a { readers.old.a ≡ new_reading }
    requires b { readers.old.b ≡ new_reading }
{
    let script = read_script(alloc, KeysFrom::KeyFile, text)?;
    let setup = Setup {
        tables: shared_key(alloc)?,
        a: script.a,
        b: script.b,
    };
    let run = run_bgp(alloc, setup, &script.events, readers)?;
    Ok(run.forgeries == 0 && run.faults == 0 && is_spoken(run.text.as_slice()))
}

fn place(reader: &BgpReader) -> u64 {
    reader.place()
}

#[test]
fn the_readers_follow_the_live_sessions(rt: HostRuntime) -> Result<(), Fail> {
    let mut readers = BothEnds {
        a: BgpReader::new(rt.alloc())?,
        b: BgpReader::new(rt.alloc())?,
    };
    assert!(rt; run(rt.alloc(), keepalive(), &mut readers)?);
    assert!(rt; place(&readers.a) == 0 && place(&readers.b) == 19);
    Ok(())
}
