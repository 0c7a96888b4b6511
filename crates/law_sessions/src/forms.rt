//! The law of the lines of a capture.
ghost use Rattle.std.specs.Prelude.{◌≡◌, ℕ, ◌/◌, List, ◌∷◌, drop, Some, Ok};
ghost use Rattle.book_pcap.specs.declared.pcap_head.LinkType.TheVariants.{Ethernet, Raw};
ghost use Rattle.book_pcap.specs.Packets.{datagram_of};
ghost use Rattle.law_pcap.specs.LineForms.{packet_line as line_form_of};
ghost use Rattle.book_captures.specs.Frames.{Datagram};
ghost use Rattle.book_captures.specs.Captures.{frame_datagram};
ghost use Rattle.book_captures.specs.PacketLines.{packet_line};

/// The line of a packet that has a datagram is that of the line form by which `aotcp check --pcap` judges:
/// its seconds and the same bytes. So it is for raw IP, and for Ethernet where bytes 12 and 13 say IPv4 or
/// IPv6 (RFC 894; RFC 2464, section 3).
///
/// The two differ where `lines` writes more, behind tags, a session or labels, and where it writes a remark,
/// since the first four bits are another version's than the link's header says, which `check` calls bad.
pub fn lines_are_those_of_the_line_form()
    ensures raw { (n time original : ℕ) (bytes : List ℕ) (d : Datagram)
        → frame_datagram (record { time = Some time; link = 101; original = original; bytes = bytes }) ≡ Ok d
        → packet_line
        (record {
          number = n;
          frame = record {
            time = Some time;
            link = 101;
            original = original;
            bytes = bytes;
          };
        }) ≡ line_form_of (time / 1000000000) (datagram_of Raw bytes) }
    ensures v4 { (n time original : ℕ) (bytes rest : List ℕ) (d : Datagram) → drop 12 bytes ≡ 8 ∷ 0 ∷ rest
        → frame_datagram (record { time = Some time; link = 1; original = original; bytes = bytes }) ≡ Ok d
        → packet_line
        (record { number = n; frame = record { time = Some time; link = 1; original = original; bytes = bytes } })
        ≡ line_form_of (time / 1000000000) (datagram_of Ethernet bytes) }
    ensures v6 { (n time original : ℕ) (bytes rest : List ℕ) (d : Datagram) → drop 12 bytes ≡ 134 ∷ 221 ∷ rest
        → frame_datagram (record { time = Some time; link = 1; original = original; bytes = bytes }) ≡ Ok d
        → packet_line
        (record { number = n; frame = record { time = Some time; link = 1; original = original; bytes = bytes } })
        ≡ line_form_of (time / 1000000000) (datagram_of Ethernet bytes) }
{}
