//! What the MAC protects.
ghost use Rattle.std.specs.Prelude.{◌≡◌, ℕ, Bool, length};
ghost use Rattle.book_segments.specs.Options.{Ao};
ghost use Rattle.book_segments.specs.Segments.{Segment};
ghost use Rattle.book_macs.specs.MacInput.{mac_input};
ghost use Rattle.book_macs.specs.Meaning.{SameFamily, NumberedSegment, SameMeaning};

/// Two segments of one family whose MACs are computed over equal bytes have equal numbers,
/// sequence and acknowledgement fields, flags, windows, ids and payloads, whether either covers all
/// options or the TCP-AO option alone (RFC 5925, section 5.1). Each has one TCP-AO option, with a
/// MAC of one length, and a number below 2^64 that its sequence field means.
pub fn equal_inputs_equal_meaning()
    ensures { (n m : ℕ) (d e : Segment) (p q : Ao) (f g : Bool) → NumberedSegment n d p → NumberedSegment m e q
        → SameFamily d.ip e.ip → length p.mac ≡ length q.mac → mac_input n d p f ≡ mac_input m e q g
        → SameMeaning n m d e p q }
{}
