//! Checks the captures in `data/`, each by its key file, and writes their lines. They were recorded on
//! a link between two kernels; each of their TCP segments passes.
#![tactic(auto)]

mod captured;

use ao_base::{ReadSource, WriteSink};
use captured::check_by;
use std::fs::File;
use std::io;

/// Writes a capture's name, its lines, and how the check ended.
fn check(rt: &HostRuntime, name: &str, keys: &str, capture: &str) -> io::Result<()> {
    println!(rt; "{name}")?;
    let mut keys = ReadSource::new(File::open(rt, keys)?);
    let mut capture = ReadSource::new(File::open(rt, capture)?);
    let mut out = WriteSink::new(rt.stdout());
    match check_by(rt.alloc(), &mut keys, &mut capture, &mut out) {
        Ok(false) => println!(rt; "every segment passed"),
        Ok(true) => println!(rt; "some packet is no pass"),
        Err(halt) => println!(rt; "{halt:?}"),
    }
}

fn main(rt: HostRuntime) -> io::Result<()> {
    check(
        &rt,
        "eth-v6-cmac-noopt",
        "eth-v6-cmac-noopt.toml",
        "eth-v6-cmac-noopt.pcap",
    )?;
    check(
        &rt,
        "v4-reset-sha1-opt",
        "v4-reset-sha1-opt.toml",
        "v4-reset-sha1-opt.pcap",
    )?;
    check(
        &rt,
        "v4-ts-sha1-opt",
        "v4-ts-sha1-opt.toml",
        "v4-ts-sha1-opt.pcap",
    )?;
    check(
        &rt,
        "v6-wrap-cmac-noopt",
        "v6-wrap-cmac-noopt.toml",
        "v6-wrap-cmac-noopt.pcap",
    )
}
