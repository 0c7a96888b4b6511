//! A datagram from the peer, by what is kept of its pair.
ghost use Rattle.std.specs.Prelude.{◌≡◌, ◌+◌, ◌≤◌, Bool, false, length, Err, IfOk, IfErr, OnErr};
ghost use Rattle.book_segments.specs.Options.{find_ao};
ghost use Rattle.book_segments.specs.Segments.{Segment, Read, reading, has, SYN};
ghost use Rattle.book_shim.specs.Arriving.{inbound};
ghost use Rattle.ao_kdf.specs.declared.way.Way.TheVariants.{Inbound};
ghost use Rattle.ao_check.specs.Bonds.{Counted};
ghost use Rattle.ao_check.specs.Verdicts.{judging};
ghost use Rattle.ao_shim.specs.Guards.{Suits, Taken, AreLow};

use crate::arrival::{heard, judged, most_mss};
use crate::layout::relay;
use crate::leaving::renew;
use crate::rewrite::coming;
use crate::rows::is_keyed;
use ao_base::{Steps, is_same_socket};
use ao_kdf::KeyCache;
use book_base::Pair;
use book_shim::{Kept, Untaken};
use key_table::Table;
use std::sync::ledger::Ledger;
use tcp_segment::read_datagram;

/// Opens a datagram from the peer, and gives its length and what is kept then.
pub(crate) fn opened<L: Ledger>(
    keys: &mut KeyCache,
    pair: &Pair,
    before: &Kept,
    table: &Table,
    mtu: u16,
    now: u64,
    bytes: &[u8],
    out: &mut [u8],
    steps: &mut Steps<L>,
) -> Result<(usize, Kept), Untaken>
    requires suits { Suits table.now.rows (record { pair = pair.now; kept = before.now; keys = keys.old }) }
    requires low { AreLow before.now }
    requires room { length bytes.now ≤ length out.old }
    ensures taken { IfOk result (λ r. Taken (record { rows = table.now.rows; now = now; mtu = mtu }) pair.now
        before.now r.1 bytes.now out.old out.new r.0) }
    ensures low { IfOk result (λ r. AreLow r.1) }
    ensures suits { IfOk result (λ r. Suits table.now.rows (record { pair = pair.now; kept = r.1; keys = keys.new })) }
    ensures still { OnErr result
        (Suits table.now.rows (record { pair = pair.now; kept = before.now; keys = keys.new })) }
    ensures refused { IfErr result (λ why. inbound (record { rows = table.now.rows; now = now; mtu = mtu }) pair.now
        before.now bytes.now ≡ Err why) }
    ensures unchanged { OnErr result (out.new ≡ out.old) }
    ensures counted { (d : Segment) → reading bytes.now ≡ Read d → has SYN d ≡ false
        → (b : Bool) × Counted keys.old keys.new (judging table.now.rows pair.now now (find_ao d.area)) b Inbound false
        steps.old steps.new }
    ensures most { steps.new ≤ steps.old + 1 }
    ensures rows { keys.new.rows ≡ keys.old.rows }
{
    let datagram = match read_datagram(bytes) {
        Err(fault) => return Err(Untaken::Bad(fault)),
        Ok(datagram) => datagram,
    };
    if !is_same_socket(&datagram.source(), &pair.remote) {
        return Err(Untaken::Foreign);
    }
    if !is_same_socket(&datagram.destination(), &pair.local) {
        return Err(Untaken::Foreign);
    }
    if !is_keyed(table, pair) {
        return Err(Untaken::Unkeyed);
    }
    if !datagram.checksum_ok() {
        return Err(Untaken::Checksum);
    }
    let passing = match judged(keys, pair, before, table, now, &datagram, steps) {
        Err(verdict) => return Err(Untaken::Refused(verdict)),
        Ok(passing) => passing,
    };
    let most = most_mss(mtu, bytes, &datagram);
    let area = coming(&datagram.options(), most);
    let end = relay(out, bytes, &datagram, area.as_slice());
    let number = passing.passed.number;
    let asked = passing.option.rnext;
    let kept = heard(pair, before, table, now, &datagram, number, asked);
    renew(keys, before, &kept);
    Ok((end, kept))
}
