//! The laws above option areas and datagrams.
ghost use Rattle.std.specs.Prelude.{◌≡◌, ◌↔◌, ℕ, ◌-◌, ◌%◌, ◌<◌, true, List, [], ◌++◌};
ghost use Rattle.book_segments.specs.Areas.{Area, FaultAt};
ghost use Rattle.book_segments.specs.declared.fault.OptionFault.{OptionFault};
ghost use Rattle.book_segments.specs.Options.{Opt, Listed, Faulty, options_of, AreListed, listed};
ghost use Rattle.book_segments.specs.Segments.{Segment, spell, reading, Read, words_sum, sums, complement_of};
ghost use Rattle.book_segments.specs.Folded.{folded};
ghost use Rattle.book_segments.specs.Spelling.{AreBytes, Fits, Spells, Good, finished};

/// The options that are read are those of the grammar: a list of options exactly where the bytes
/// are their spellings and a tail, and a fault exactly where the first faulty option stands (RFC
/// 9293, section 3.2).
pub fn options_are_the_grammar()
    ensures read { (bytes : List ℕ) → AreListed (options_of bytes)
        → (tail : List ℕ) × Area (listed (options_of bytes)) tail bytes }
    ensures only { (list : List Opt) (tail bytes : List ℕ) → Area list tail bytes → options_of bytes ≡ Listed list }
    ensures fault { (bytes : List ℕ) (fault : OptionFault) → options_of bytes ≡ Faulty fault → FaultAt bytes fault }
    ensures only_fault { (bytes : List ℕ) (fault : OptionFault) → FaultAt bytes fault
        → options_of bytes ≡ Faulty fault }
{}

/// Spellings are a prefix code: a value has at most one spelling, no two values share one, and no
/// spelling is a proper prefix of another (RFC 791, RFC 8200, RFC 9293, section 3.1).
pub fn spellings_are_unique()
    ensures one_spelling { (d : Segment) (one two : List ℕ) → Spells d one → Spells d two → one ≡ two }
    ensures one_value { (d e : Segment) (bytes : List ℕ) → Spells d bytes → Spells e bytes → d ≡ e }
    ensures no_prefix { (d e : Segment) (bytes rest : List ℕ) → Spells d bytes → Spells e (bytes ++ rest) → rest ≡ [] }
{}

/// Bytes are read as a datagram exactly where a prefix of them spells it. A datagram whose TCP
/// checksum was set is good, and is read again, whatever follows.
pub fn reading_is_the_spelling()
    ensures read { (bytes : List ℕ) (d : Segment) → AreBytes bytes → reading bytes ≡ Read d
        → (rest : List ℕ) × Fits d × (bytes ≡ spell d ++ rest) }
    ensures only { (bytes rest : List ℕ) (d : Segment) → Fits d → bytes ≡ spell d ++ rest → reading bytes ≡ Read d }
    ensures finished { (d : Segment) (rest : List ℕ) → Fits d
        → Good (finished d) × Fits (finished d) × (reading (spell (finished d) ++ rest) ≡ Read (finished d)) }
{}

/// A folded sum fits 16 bits, and has the plain sum's remainder modulo ffff: a checksum is right
/// exactly where the plain sum of all words is above 0 and divisible by ffff, and the checksum that
/// makes it so is what the plain sum of the words lacks to a multiple of ffff, or is ffff where they
/// are all 0 (RFC 1071, section 1).
pub fn folded_sums_are_remainders()
    ensures fits { (sum : ℕ) → folded sum < 0x10000 }
    ensures same { (sum : ℕ) → folded sum % 0xffff ≡ sum % 0xffff }
    ensures right { (bytes : List ℕ) → (sums bytes ≡ true) ↔ ((0 < words_sum bytes) × (words_sum bytes % 0xffff ≡ 0)) }
    ensures complement { (bytes : List ℕ) → 0 < words_sum bytes → 0 < words_sum bytes % 0xffff
        → complement_of bytes ≡ 0xffff - words_sum bytes % 0xffff }
    ensures divisible { (bytes : List ℕ) → 0 < words_sum bytes → words_sum bytes % 0xffff ≡ 0
        → complement_of bytes ≡ 0 }
    ensures zero { (bytes : List ℕ) → words_sum bytes ≡ 0 → complement_of bytes ≡ 0xffff }
{}
