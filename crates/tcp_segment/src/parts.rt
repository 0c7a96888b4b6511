//! Parts of a buffer that is written in place.
ghost use Rattle.std.specs.Prelude.{◌≡◌, ℕ, List, ◌+◌, ◌-◌, ◌≤◌, ◌++◌, length, take, drop, replicate};
ghost use Rattle.tcp_segment.specs.Parts.{spliced};

/// Writes a part at a place.
fn splice(out: &mut [u8], at: usize, part: &[u8])
    requires { at + length part.now ≤ length out.old }
    ensures { out.new ≡ spliced out.old at part.now }
{
    let end = at + part.len();
    out[at..end].copy_from_slice(part);
}

/// Writes zero bytes at a place.
fn splice_zeros(out: &mut [u8], at: usize, count: usize)
    requires { at + count ≤ length out.old }
    ensures { out.new ≡ spliced out.old at (replicate count 0) }
{
    let end = at + count;
    out[at..end].fill(0);
}

/// Writes a part, and says where it ends.
pub(crate) fn put(out: &mut [u8], at: usize, part: &[u8]) -> usize
    requires { at + length part.now ≤ length out.old }
    ensures end { result ≡ at + length part.now }
    ensures front { take result out.new ≡ take at out.old ++ part.now }
    ensures rest { (n : ℕ) → result ≤ n → drop n out.new ≡ drop n out.old }
{
    splice(out, at, part);
    at + part.len()
}

/// Writes zero bytes up to a place.
pub(crate) fn put_zeros(out: &mut [u8], at: usize, end: usize)
    requires order { at ≤ end }
    requires fits { end ≤ length out.old }
    ensures front { take end out.new ≡ take at out.old ++ replicate (end - at) 0 }
    ensures rest { drop end out.new ≡ drop end out.old }
{
    splice_zeros(out, at, end - at);
}
