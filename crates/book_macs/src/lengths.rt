//! How long traffic keys and MACs are.
ghost use Rattle.std.specs.Prelude.{◌≡◌, ℕ, List, length};
ghost use Rattle.book_base.specs.Algorithms.{mac_length_of};
ghost use Rattle.book_base.specs.declared.algorithm.Algorithm.{Algorithm};
ghost use Rattle.book_segments.specs.Spelling.{AreBytes};
ghost use Rattle.book_macs.specs.Keys.{key_length, mac, traffic_key};

/// A traffic key has its algorithm's length, whatever the master key and the context: 20, 16 and
/// 32 bytes (RFC 5926, section 3.1, and own).
pub fn traffic_keys_have_their_length()
    ensures { (algorithm : Algorithm) (master context : List ℕ)
        → length (traffic_key algorithm master context) ≡ key_length algorithm }
{}

/// Under a key of its algorithm's length a MAC has its algorithm's length, whatever the input: 12,
/// 12 and 16 bytes (RFC 5926, section 3.2, and own).
pub fn macs_have_their_length()
    ensures { (algorithm : Algorithm) (key input : List ℕ) → length key ≡ key_length algorithm
        → length (mac algorithm key input) ≡ mac_length_of algorithm }
{}

/// A MAC is bytes where its key and its input are; so is a traffic key where the master key and
/// the context are.
pub fn macs_are_bytes()
    ensures keys { (algorithm : Algorithm) (master context : List ℕ) → AreBytes master → AreBytes context
        → AreBytes (traffic_key algorithm master context) }
    ensures macs { (algorithm : Algorithm) (key input : List ℕ) → AreBytes key → AreBytes input
        → AreBytes (mac algorithm key input) }
{}
