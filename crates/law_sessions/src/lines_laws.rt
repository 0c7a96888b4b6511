//! The law of the lines of a capture.
ghost use Rattle.std.specs.Prelude.{◌≡◌, ℕ, ◌<◌, [], List, length, map, None};
ghost use Rattle.std.specs.List.{All};
ghost use Rattle.book_captures.specs.declared.pcap_head.PcapHead.{PcapHead};
ghost use Rattle.book_captures.specs.PcapFiles.{KeptPacket, IsPcapFile};
ghost use Rattle.book_captures.specs.Captures.{CapturePacket, capture_of};
ghost use Rattle.book_cmd_check.specs.StoredLines.{stored_input};
ghost use Rattle.book_captures.specs.PacketLines.{packet_lines};
ghost use Rattle.book_sessions.specs.Sessions.{all_captured, all_stored, mended_of};
ghost use Rattle.law_sessions.specs.SeenPackets.{AreSeen};

/// The lines of packets have no fault, and the stored segments that they say are the packets' datagrams, each at
/// its second and with its packet's number: so `check` of the lines judges these and no others. `aoscope` judges the
/// same, but for the header checksums that aren't set, which it sets.
///
/// So it is of packets of any capture, behind whatever headers, whose numbers and times have 64 bits; and of those
/// of each classic file, in either resolution, that is a header and whole records.
pub fn check_judges_what_lines_writes()
    ensures packets { (packets : List CapturePacket) → AreSeen 1 packets
        → stored_input (packet_lines packets) ≡ record { stored = all_captured packets; fault = None } }
    ensures files { (head : PcapHead) (kept : List KeptPacket) (file : List ℕ) → All (λ b. b < 256) file
        → length file < 9223372036854775808 → IsPcapFile head kept [] file
        → stored_input (packet_lines (capture_of file).packets)
        ≡ record { stored = all_captured (capture_of file).packets; fault = None } }
    ensures mended { (packets : List CapturePacket) → all_stored packets ≡ map mended_of (all_captured packets) }
{}
