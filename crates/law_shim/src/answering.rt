//! What a kernel answers.
ghost use Rattle.std.specs.Prelude.{◌≡◌, ◌<◌, Ok, true, false};
ghost use Rattle.book_base.specs.declared.address.Pair.{Pair};
ghost use Rattle.book_segments.specs.Bytes.{ring};
ghost use Rattle.book_segments.specs.Segments.{Segment, has, SYN, ACK};
ghost use Rattle.book_shim.specs.declared.kept.Kept.{Kept};
ghost use Rattle.book_shim.specs.Arriving.{Opened, take_in, admitted, is_of_connection};
ghost use Rattle.book_shim.specs.Keeping.{Setting, answered_isn, is_the_number};
ghost use Rattle.book_shim.specs.Leaving.{resets};
ghost use Rattle.law_shim.specs.Resetting.{IsResetOf, IsHeardAcross};

/// Where the kernel answers what was handed to it by a RST, that is sealed under the connection of what it answers,
/// whose two numbers the peer has too. So it is in the connection in use, unless a connection that is late is reset
/// under the same number; so it is where a SYN with ACK began a connection; and so it is where a SYN with ACK answered
/// a SYN that the kernel had given up.
pub fn rst_is_sealed_where_it_answers()
    ensures in_use { (here : Setting) (pair : Pair) (g : Kept) (d r : Segment) (t : Opened)
        → take_in here pair g d ≡ Ok t → IsResetOf d r
        → is_of_connection (admitted g d) d ≡ true → resets t.kept.late r ≡ false → IsHeardAcross pair d r t }
    ensures begun { (here : Setting) (pair : Pair) (g : Kept) (d r : Segment) (t : Opened)
        → take_in here pair g d ≡ Ok t → IsResetOf d r
        → has SYN d ≡ true → has ACK d ≡ true → is_the_number g.opening (answered_isn d) ≡ true
        → IsHeardAcross pair d r t }
    ensures given_up { (here : Setting) (pair : Pair) (g : Kept) (d r : Segment) (t : Opened)
        → take_in here pair g d ≡ Ok t → IsResetOf d r
        → has SYN d ≡ true → has ACK d ≡ true
        → is_the_number g.opening (answered_isn d) ≡ false → is_the_number g.given_up (answered_isn d) ≡ true
        → d.acknowledgement < ring → IsHeardAcross pair d r t }
{}
