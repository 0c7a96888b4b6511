//! What is found of an area for its reader: `show` lists the options themselves.
use std::test::Fail;
use tcp_segment::{AoFound, read_options};

/// Kind 1, a maximum segment size, TCP-AO with a MAC of two bytes, kinds 1 and 0, and a faulty option behind them.
const AREA: [u8; 16] = [
    1, 2, 4, 2, 0x18, 0x1d, 6, 7, 9, 0xaa, 0xbb, 1, 0, 0x1d, 0xff, 0xff,
];

#[test]
fn the_option_of_tcp_ao_is_told_by_its_place(rt: HostRuntime) -> Result<(), Fail> {
    let options = read_options(&AREA).ok().ok_or("a fault")?;
    assert!(rt; options.mss() == Some(536));
    let AoFound::One(ao) = options.find_ao() else {
        return Err("no TCP-AO option")?;
    };
    assert!(rt; (ao.key_id, ao.rnext, ao.place) == (7, 9, 5));
    assert!(rt; ao.mac == [0xaa, 0xbb].as_slice());
    Ok(())
}
