//! The law above drafts.
ghost use Rattle.std.specs.Prelude.{◌≡◌, ℕ, List, length};
ghost use Rattle.tcp_segment.specs.declared.spelling.Head.{Head};
ghost use Rattle.tcp_segment.specs.Drafts.{DatagramMut, Drafted};
ghost use Rattle.tcp_segment.specs.Loans.{with_payload, with_mac};

/// What is put into the payload of a draft, in its whole length, is the payload of the datagram that
/// `finish` leaves, and what is put into its MAC is the MAC; head and the other part stay. So the
/// two parts don't overlap, and either may be put in first.
pub fn parts_put_in_are_kept()
    ensures payload { (d : DatagramMut) (h : Head) (mac old rest put : List ℕ) → Drafted d h mac old rest
        → length put ≡ length old → Drafted (with_payload d put) h mac put rest }
    ensures mac { (d : DatagramMut) (h : Head) (old payload rest put : List ℕ) → Drafted d h old payload rest
        → length put ≡ length old → Drafted (with_mac d put) h put payload rest }
{}
