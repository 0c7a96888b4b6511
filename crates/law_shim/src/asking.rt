//! What a peer asks for.
ghost use Rattle.std.specs.Prelude.{◌≡◌, Ok, Some, None, false};
ghost use Rattle.book_base.specs.declared.address.Pair.{Pair};
ghost use Rattle.book_keys.specs.Choices.{Numbered};
ghost use Rattle.book_segments.specs.Segments.{Segment};
ghost use Rattle.book_shim.specs.declared.kept.Kept.{Kept};
ghost use Rattle.book_shim.specs.Arriving.{Opened, take_in, asked_id};
ghost use Rattle.book_shim.specs.Keeping.{Setting, is_opening_syn};
ghost use Rattle.book_shim.specs.Leaving.{Sealed, send_sealed};
ghost use Rattle.law_shim.specs.Asking.{AsksFor, IsUnder, MaySendWith};

/// Where a segment that passes asks for a row that may send, the next one that is sealed, but for a SYN that opens, is
/// under that row's key, so long as it may send; so is each after it, since the row stays the current one, also
/// where what passes asks for none.
pub fn asked_key_is_used()
    ensures next { (here later : Setting) (pair : Pair) (g : Kept) (d e : Segment) (t : Opened) (m : Sealed)
        (q : Numbered) → take_in here pair g d ≡ Ok t → AsksFor here pair g d t q
        → MaySendWith later pair q → is_opening_syn e ≡ false → send_sealed later pair t.kept e ≡ Ok m → IsUnder q m }
    ensures after { (here : Setting) (pair : Pair) (g : Kept) (e : Segment) (m : Sealed) (q : Numbered)
        → g.current ≡ Some q.number
        → MaySendWith here pair q → is_opening_syn e ≡ false → send_sealed here pair g e ≡ Ok m → IsUnder q m }
    ensures stays { (here : Setting) (pair : Pair) (g : Kept) (d : Segment) (t : Opened)
        → take_in here pair g d ≡ Ok t → asked_id g d t.passed ≡ None → t.kept.current ≡ g.current }
{}
