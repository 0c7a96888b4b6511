//! What the definitions say of an answer.
ghost use Rattle.std.specs.Prelude.{◌≡◌, ◌≢◌, ◌↔◌, [], ◌++◌, ◌∷◌, ℕ, List, Contains, Ok, Err, Some, None, length};
ghost use Rattle.std.specs.Prelude.{true, false, Option};
ghost use Rattle.std.specs.List.{All};
ghost use Rattle.book_base.specs.declared.address.Pair.{Pair};
ghost use Rattle.book_captures.specs.Captures.{CapturePacket};
ghost use Rattle.book_cmd_check.specs.declared.given.GivenIsns.{GivenIsns};
ghost use Rattle.book_cmd_check.specs.Captures.{Stored, hear, judge_stored, sayings_from};
ghost use Rattle.book_cmd_check.specs.Connections.{connections_after};
ghost use Rattle.book_cmd_check.specs.Handshakes.{given_after};
ghost use Rattle.book_endpoint.specs.declared.refusal.Refusal.TheVariants.{BadMac};
ghost use Rattle.book_endpoint.specs.Verdicts.{Finding, judge};
ghost use Rattle.book_keys.specs.Choices.{accept_row, acceptable_as};
ghost use Rattle.book_keys.specs.Rows.{Row, Table};
ghost use Rattle.book_scope_plan.specs.AdminNames.{KeyFile};
ghost use Rattle.book_segments.specs.Segments.{Segment, pair_reached};
ghost use Rattle.book_sessions.specs.Sessions.{all_stored, captured_of_packet, stored_of_packet};
ghost use Rattle.book_why.specs.declared.change.IsnPair.{IsnPair};
ghost use Rattle.book_why.specs.Judging.{ComesToItsMac, suspect_finding};
ghost use Rattle.book_why.specs.Recipes.{Suspect, mac_made, recipe_of};
ghost use Rattle.book_why.specs.Answers.{WhyAsked, answer_behind, behind_stored, has_number, no_packet_line};
ghost use Rattle.book_why.specs.Answers.{passes_behind, said_behind, why_passes, why_text};
ghost use Rattle.book_why.specs.Lacks.{lacks};
ghost use Rattle.book_why.specs.MacTexts.{extension_part, header_part, options_part, pseudo_part};
ghost use Rattle.book_why.specs.OtherIsns.{TellsIsns, are_own, other_isns};
ghost use Rattle.book_why.specs.Sights.{Sight, known_at, suspect_at};
ghost use Rattle.book_why.specs.Suspects.{Failing, Passing};

/// An answer is of the first packet of the number that is asked for, behind the given handshakes and all packets in
/// front of it, whatever follows; it passes exactly where its datagram does. Where no packet has the number, that is
/// said.
pub fn answers_are_of_the_packet_asked_for()
    ensures text { (keys : KeyFile) (asked : WhyAsked) (before after : List CapturePacket) (p : CapturePacket)
        → All (λ q. has_number asked.number q ≡ false) before → has_number asked.number p ≡ true
        → why_text keys asked (before ++ p ∷ after) ≡ answer_behind keys
        (behind_stored keys.tables asked.given (all_stored before)) asked.with_key p.number (captured_of_packet p) }
    ensures passes { (tables : List Table) (asked : WhyAsked) (before after : List CapturePacket) (p : CapturePacket)
        → All (λ q. has_number asked.number q ≡ false) before → has_number asked.number p ≡ true
        → why_passes tables asked (before ++ p ∷ after) ≡ passes_behind tables
        (behind_stored tables asked.given (all_stored before)) (stored_of_packet p) }
    ensures missing { (keys : KeyFile) (asked : WhyAsked) (packets : List CapturePacket)
        → All (λ q. has_number asked.number q ≡ false) packets
        → why_text keys asked packets ≡ no_packet_line asked.number (length packets) }
{}

/// What an answer says of a segment is what `check` says of it, judged behind the given handshakes and all packets in
/// front of it: the same words stand at its place among those for all packets.
pub fn told_verdict_is_the_checks()
    ensures { (tables : List Table) (given : List GivenIsns) (before after : List CapturePacket) (p : CapturePacket)
        (s : Stored) → stored_of_packet p ≡ Ok s
        → sayings_from tables (given_after [] given) (all_stored (before ++ p ∷ after))
        ≡ sayings_from tables (given_after [] given) (all_stored before)
        ++ (said_behind tables (behind_stored tables given (all_stored before)) s
        ∷ sayings_from tables
        (hear tables (connections_after tables (given_after [] given) (all_stored before)) s.time s.bytes).connections
        (all_stored after)) }
{}

/// A row lacks nothing exactly where it takes a segment: for these sockets, with this KeyID, at this time (RFC 5925,
/// section 7.5). So where no row takes it, each lacks something.
pub fn rows_lack_nothing_where_they_take()
    ensures row { (pair : Pair) (id now : ℕ) (r : Row) → (lacks pair id now r ≡ [])
        ↔ (acceptable_as pair id now r ≡ true) }
    ensures rows { (pair : Pair) (id now : ℕ) (rows : List Row) → (accept_row rows pair id now ≡ None)
        ↔ All (λ r. lacks pair id now r ≢ []) rows }
{}

/// The values that an answer tells of a segment are those by which the check judges it: where its MAC is wrong, the
/// check comes to it by this suspect's row, context and number, and its right recipe makes another MAC; where it
/// passes, it passes with what the suspect tells.
pub fn suspects_are_what_the_check_judges()
    ensures known { (s : Sight) → judge_stored s.table.rows (pair_reached s.segment) s.now s.segment s.held
        ≡ judge s.table.rows (pair_reached s.segment) (known_at s) s.now s.segment }
    ensures fails { (s : Sight) → judge s.table.rows (pair_reached s.segment) (known_at s) s.now s.segment ≡ Err BadMac
        → Failing s }
    ensures passes { (s : Sight) (p : Finding) → judge s.table.rows (pair_reached s.segment) (known_at s) s.now
        s.segment ≡ Ok p → Passing s p }
{}

/// The parts of a MAC's input that an answer shows are the whole input but for the payload (RFC 5925, section 5.1).
pub fn parts_are_the_input()
    ensures { (s : Suspect) → (recipe_of s).input
        ≡ extension_part s ++ (pseudo_part s ++ (header_part s ++ (options_part s ++ s.segment.payload))) }
{}

/// The initial sequence numbers that are tried are exactly those of the other connections on the segment's sockets
/// that are told or given.
pub fn tried_isns_are_those_of_other_connections()
    ensures { (d : Segment) (own : Option IsnPair) (told : List GivenIsns) (isns : IsnPair)
        → Contains (other_isns d own told) isns ↔ TellsIsns d own told isns }
{}
