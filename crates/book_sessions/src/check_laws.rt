//! The laws of a capture that is checked.
ghost use Rattle.std.specs.Prelude.{◌≡◌, ◌+◌, ℕ, [], List, false, length};
ghost use Rattle.book_captures.specs.Captures.{CapturePacket};
ghost use Rattle.book_cmd_check.specs.declared.given.GivenIsns.{GivenIsns};
ghost use Rattle.book_cmd_check.specs.Captures.{capture_run, lines_of_sayings, sayings_from};
ghost use Rattle.book_cmd_check.specs.Handshakes.{given_after};
ghost use Rattle.book_keys.specs.Rows.{Table};
ghost use Rattle.book_sessions.specs.Sessions.{all_stored};
ghost use Rattle.book_sessions.specs.declared.class.PacketClass.{PacketClass};
ghost use Rattle.book_sessions.specs.CheckedLines.{class_count, is_amiss, is_foreign_class, is_other_class};
ghost use Rattle.book_sessions.specs.CheckedLines.{is_passing_class, is_refused_class};
ghost use Rattle.book_sessions.specs.CheckedPackets.{checked_packets, classes_of};
ghost use Rattle.book_sessions.specs.Outcomes.{AllPass, said_packets, shortened_lines};

/// The lines of the packets with a datagram, of which the second to the eighth text are left out, are those that
/// `check` writes of these datagrams at their times: after given handshakes, and as a whole where none is given.
pub fn lines_are_those_of_check()
    ensures given { (tables : List Table) (given : List GivenIsns) (packets : List CapturePacket)
        → shortened_lines (said_packets (checked_packets tables given packets))
        ≡ lines_of_sayings (all_stored packets) (sayings_from tables (given_after [] given) (all_stored packets)) }
    ensures run { (tables : List Table) (packets : List CapturePacket)
        → shortened_lines (said_packets (checked_packets tables [] packets))
        ≡ capture_run tables (all_stored packets) }
{}

/// The numbers of the last line add up to the packets of the capture, each of which is counted once.
pub fn numbers_add_up()
    ensures packets { (tables : List Table) (given : List GivenIsns) (packets : List CapturePacket)
        → length (classes_of tables (checked_packets tables given packets)) ≡ length packets }
    ensures numbers { (classes : List PacketClass)
        → class_count is_passing_class classes + class_count is_refused_class classes
        + class_count is_foreign_class classes + class_count is_other_class classes ≡ length classes }
{}

/// Where nothing is amiss each segment that isn't foreign passes, at least one does, and no packet that may be a
/// segment is passed over.
pub fn nothing_amiss_is_a_pass_of_all()
    ensures { (tables : List Table) (given : List GivenIsns) (packets : List CapturePacket)
        → is_amiss tables given packets ≡ false → AllPass tables (checked_packets tables given packets) }
{}
