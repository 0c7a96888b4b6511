//! The laws of what is counted.
ghost use Rattle.std.specs.Prelude.{◌≡◌, ◌+◌, ℕ, [], List, Ok, length, map, false, true};
ghost use Rattle.book_captures.specs.Captures.{CapturePacket};
ghost use Rattle.book_cmd_check.specs.Captures.{Connection, is_pass, sayings_from};
ghost use Rattle.book_cmd_check.specs.declared.given.GivenIsns.{GivenIsns};
ghost use Rattle.book_cmd_check.specs.Handshakes.{given_after};
ghost use Rattle.book_keys.specs.Rows.{Table};
ghost use Rattle.book_segments.specs.Segments.{Segment, Read};
ghost use Rattle.book_sessions.specs.declared.outcome.SegmentOutcome.{SegmentOutcome};
ghost use Rattle.book_sessions.specs.declared.outcome.SegmentOutcome.TheVariants as outcome;
ghost use Rattle.book_sessions.specs.Counts.{IsNoRefusal, all_counted, all_passed, counted, cut_times, like_counted};
ghost use Rattle.book_sessions.specs.Counts.{like_times, outcome_times, said_times, segments_heard, segments_seen};
ghost use Rattle.book_sessions.specs.Counts.{told_times, use_as_checked};
ghost use Rattle.book_sessions.specs.declared.uses.SeenSegment.{SeenSegment};
ghost use Rattle.book_sessions.specs.Laps.{Judging, hear_over};
ghost use Rattle.book_sessions.specs.Listening.{Listening, listen, listening_behind};
ghost use Rattle.book_sessions.specs.Passing.{FoundAhead, PassesBehind, PassesGuessed};
ghost use Rattle.book_sessions.specs.Sessions.{sessions_of, all_stored, same_outcome};

/// The numbers in a table of sessions are those of `check`'s verdicts, where no laps are searched: of each outcome but
/// the one of what was cut off it counts as many segments as `check` says it of, of the packets' datagrams at their
/// times, and of each direction, KeyID and outcome as many as there are segments of that direction with that KeyID of
/// which it says that; what is unconfirmed has no context for `check`, where a refusal by the numbers of a connection
/// that was opened anew counts as no context. What isn't refused is as often what `check` says of the datagrams as
/// they are. Of what was cut off it counts as many as there are datagrams with their headers. Over any laps they are
/// the numbers of what comes of each segment; and each packet is counted once. So it is whatever initial sequence
/// numbers are given: then of `check`'s verdicts behind those handshakes.
pub fn counts_are_those_of_the_verdicts()
    ensures verdicts { (tables : List Table) (given : List GivenIsns) (packets : List CapturePacket)
        (o : SegmentOutcome)
        → same_outcome o outcome.CutOff ≡ false
        → counted o (map use_as_checked (sessions_of (record { tables = tables; laps = 0 }) given packets).uses)
        ≡ told_times o tables (given_after [] given) [] (all_stored packets) }
    ensures unrefused { (tables : List Table) (given : List GivenIsns) (packets : List CapturePacket)
        (o : SegmentOutcome)
        → IsNoRefusal o
        → counted o (sessions_of (record { tables = tables; laps = 0 }) given packets).uses
        ≡ said_times o (sayings_from tables (given_after [] given) (all_stored packets)) }
    ensures cut { (j : Judging) (given : List GivenIsns) (packets : List CapturePacket)
        → counted outcome.CutOff (sessions_of j given packets).uses ≡ cut_times (all_stored packets) }
    ensures directions { (tables : List Table) (given : List GivenIsns) (packets : List CapturePacket) (s : SeenSegment)
        → like_counted s (map use_as_checked (sessions_of (record { tables = tables; laps = 0 }) given packets).uses)
        ≡ like_times s (segments_seen tables (given_after [] given) [] (all_stored packets)) }
    ensures outcomes { (j : Judging) (given : List GivenIsns) (packets : List CapturePacket) (o : SegmentOutcome)
        → counted o (sessions_of j given packets).uses ≡ outcome_times o
        (segments_heard j (listening_behind given) (all_stored packets)) }
    ensures ways { (j : Judging) (given : List GivenIsns) (packets : List CapturePacket) (s : SeenSegment)
        → like_counted s (sessions_of j given packets).uses ≡ like_times s
        (segments_heard j (listening_behind given) (all_stored packets)) }
    ensures packets { (j : Judging) (given : List GivenIsns) (packets : List CapturePacket)
        → all_counted (sessions_of j given packets).uses + all_passed (sessions_of j given packets).passed
        ≡ length packets }
{}

/// What is told as verified passes the check: by the connections that it holds, as they are or with so many laps more
/// expected of the segment's sender. What is told as unconfirmed passes it so by connections that are taken to have
/// begun, with initial sequence numbers that were seen, where it has no context by those that it holds, or the one
/// between its sockets was opened anew and refuses its number or its MAC. What is searched is found: it passes where
/// it does with at most so many laps more, as far as an extension goes.
pub fn right_macs_pass_the_check()
    ensures verified { (j : Judging) (l : Listening) (now : ℕ) (d : Segment)
        → (listen j l now (Read d)).outcome ≡ Ok outcome.Verified
        → PassesBehind j l.held now d }
    ensures unconfirmed { (j : Judging) (l : Listening) (now : ℕ) (d : Segment)
        → (listen j l now (Read d)).outcome ≡ Ok outcome.Unconfirmed
        → PassesGuessed j l now d }
    ensures found { (j : Judging) (held : List Connection) (now : ℕ) (d : Segment) (laps : ℕ)
        → FoundAhead j held now d laps
        → is_pass (hear_over j held now d).saying ≡ true }
{}
