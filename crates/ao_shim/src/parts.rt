//! Parts of a buffer that is written in place.
ghost use Rattle.std.specs.Prelude.{◌≡◌, ℕ, List, ◌+◌, ◌≤◌, ◌++◌, length, take, drop};
ghost use Rattle.tcp_segment.specs.Parts.{spliced};

/// Writes a part at a place.
fn splice(out: &mut [u8], at: usize, part: &[u8])
    requires { at + length part.now ≤ length out.old }
    ensures { out.new ≡ spliced out.old at part.now }
{
    let end = at + part.len();
    out[at..end].copy_from_slice(part);
}

/// Writes a part, and says where it ends.
pub(crate) fn put(out: &mut [u8], at: usize, part: &[u8]) -> usize
    requires { at + length part.now ≤ length out.old }
    ensures end { result ≡ at + length part.now }
    ensures front { take result out.new ≡ take at out.old ++ part.now }
    ensures rest { (n : ℕ) → result ≤ n → drop n out.new ≡ drop n out.old }
{
    splice(out, at, part);
    at + part.len()
}
