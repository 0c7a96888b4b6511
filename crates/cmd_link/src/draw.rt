//! The numbers that a storm draws, by SplitMix64.
ghost use Rattle.std.specs.Prelude.{◌≡◌, ◌<◌, ◌^◌};
ghost use Rattle.book_link.specs.Storm.{draw, drawn, xor_shifted};

/// What a draw adds to the state.
const STEP: u64 = 0x9e37_79b9_7f4a_7c15;
/// The factors of the two mixings.
const FIRST: u64 = 0xbf58_476d_1ce4_e5b9;

const SECOND: u64 = 0x94d0_49bb_1331_11eb;

/// The state after a draw.
pub(crate) fn drawn(state: u64) -> u64
    ensures { result ≡ drawn state }
{
    state.wrapping_add(STEP)
}

/// The number xored with itself shifted down by so many bits, times the factor modulo 2^64.
fn mixed(z: u64, shift: u32, factor: u64) -> u64
    requires { shift < 64 }
    ensures { result ≡ xor_shifted z (2 ^ shift) factor }
{
    (z ^ (z >> shift)).wrapping_mul(factor)
}

/// What the state draws.
#[tactic(auto, unfolding(book_link::specs::Storm::draw))]
pub(crate) fn draw(state: u64) -> u64
    ensures { result ≡ draw state }
{
    let once = mixed(state, 30, FIRST);
    let twice = mixed(once, 27, SECOND);
    twice ^ (twice >> 31)
}
