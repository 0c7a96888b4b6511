//! A row that is added and withdrawn while an association is in use, and a segment that is signed.
ghost use Rattle.std.specs.Prelude.{◌≡◌, ◌<◌, ◌≤◌, length, Some};
ghost use Rattle.ao_check.specs.Bonds.{Bond, Fits};

use super::passes::PAST_A_LAP;
use super::{LOCAL, PAIR, REMOTE, add, arriving};
use ao_base::Steps;
use ao_check::{Association, Passed, Refusal};
use book_base::{Algorithm, Pair};
use key_table::{NoRow, Table};
use std::alloc::Global;
use std::marker::Brand;
use std::sync::ledger::{Blank, Ledger};
use std::test::Fail;
use tcp_segment::{Head, write_datagram};

/// Withdraws a row.
fn withdraw(table: &mut Table, n: u8) -> Result<(), NoRow>
    ensures { (a : Bond) → Fits table.old.rows a → Fits table.new.rows a }
{
    table.withdraw(n)
}

/// The verdict on the segment past a lap.
fn past_a_lap<L: Ledger>(
    association: &mut Association,
    table: &Table,
    steps: &mut Steps<L>,
) -> Option<Result<Passed, Refusal>>
    requires fits { Fits table.now.rows association.old }
    requires pair { association.old.pair ≡ PAIR }
    requires peer { association.old.peer ≡ Some 100 }
    ensures fits { Fits table.now.rows association.new }
    ensures pair { association.new.pair ≡ PAIR }
    ensures peer { association.new.peer ≡ Some 100 }
    ensures room { association.new.keys.rows ≡ association.old.keys.rows }
{
    match arriving(&PAIR, &PAST_A_LAP) {
        None => None,
        Some(datagram) => Some(association.check(table, 0, Some(1 << 32), &datagram, steps)),
    }
}

/// What one association says of the segment before its row is added, then, and once it is withdrawn.
fn changes<L: Ledger>(
    alloc: Global,
    blank: Blank,
) -> Result<[Option<Result<Passed, Refusal>>; 3], Fail>
    requires name { blank.name ≡ L.name }
    requires parts { blank.parts ≡ L.parts }
    requires part { 0 < blank.parts }
{
    let mut steps = Steps::<L>::new(blank);
    let mut table = Table::empty(alloc, PAIR.local.address);
    let mut association = Association::new(alloc, &table, PAIR, 200, 1)?;
    association.learn(100);
    let before = past_a_lap(&mut association, &table, &mut steps);
    add(alloc, &mut table, 1, Algorithm::HmacSha1)?;
    let added = past_a_lap(&mut association, &table, &mut steps);
    withdraw(&mut table, 1).ok().ok_or("no row")?;
    let withdrawn = past_a_lap(&mut association, &table, &mut steps);
    Ok([before, added, withdrawn])
}

#[test]
fn a_row_takes_once_added_and_refuses_once_withdrawn(rt: HostRuntime) -> Result<(), Fail> {
    let [before, added, withdrawn] = changes::<Brand>(rt.alloc(), Blank::new(1))?;
    assert!(rt; before == Some(Err(Refusal::NoTuple)));
    assert!(rt; matches!(added, Some(Ok(_))));
    assert!(rt; withdrawn == Some(Err(Refusal::NoTuple)));
    Ok(())
}

/// The same connection, as its other end sees it.
const MIRRORED: Pair = Pair {
    local: REMOTE,
    remote: LOCAL,
};

/// Lays the segment past a lap out, and signs it.
fn signed<L: Ledger>(alloc: Global, blank: Blank, out: &mut [u8]) -> Result<usize, Fail>
    requires name { blank.name ≡ L.name }
    requires parts { blank.parts ≡ L.parts }
    requires part { 0 < blank.parts }
    requires room { 1500 ≤ length out.old }
{
    let mut steps = Steps::<L>::new(blank);
    let mut table = Table::empty(alloc, MIRRORED.local.address);
    add(alloc, &mut table, 1, Algorithm::HmacSha1)?;
    let mut association = Association::new(alloc, &table, MIRRORED, 100, table.rows())?;
    association.learn(200);
    let sending = association.choose(&table, 0).ok_or("no row")?;
    let head = Head {
        source: MIRRORED.local,
        destination: MIRRORED.remote,
        sequence: 5,
        acknowledgement: 0,
        flags: 0x10,
        window: 512,
        mss: None,
        key_id: sending.key_id,
        rnext: sending.rnext,
        mac_length: table.row(sending.row).algorithm().mac_length(),
    };
    let mut datagram = write_datagram(out, &head, 0);
    association.sign(&table, &sending, (1 << 32) + 5, &mut datagram, &mut steps);
    Ok(datagram.finish())
}

#[test]
fn what_is_signed_is_what_another_program_signs(rt: HostRuntime) -> Result<(), Fail> {
    let mut out = [0; 1500];
    let length = signed::<Brand>(rt.alloc(), Blank::new(1), &mut out)?;
    assert!(rt; length == 56 && out.starts_with(&PAST_A_LAP));
    Ok(())
}
