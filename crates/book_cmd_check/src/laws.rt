//! What the definitions say of stored datagrams, as clauses of functions that do nothing.
ghost use Rattle.std.specs.Prelude.{◌≡◌, ℕ, List, [], ◌++◌, true};
ghost use Rattle.book_keys.specs.Rows.{Table};
ghost use Rattle.book_segments.specs.Segments.{Segment, Read, reading};
ghost use Rattle.book_cmd_check.specs.declared.given.GivenIsns.{GivenIsns};
ghost use Rattle.book_cmd_check.specs.Captures.{Connection, Stored, hear, is_pass, sayings_from};
ghost use Rattle.book_cmd_check.specs.Connections.{connections_after, IsMap};
ghost use Rattle.book_cmd_check.specs.Handshakes.{EndsHandshake, and_given, given_after};

/// The connections that are held while stored datagrams are judged are a map: whatever was stored,
/// at most one of them is between any two sockets. The datagrams that follow are judged by them. So it is
/// too where connections were given before the first.
pub fn connections_are_a_map()
    ensures map { (tables : List Table) (stored : List Stored) → IsMap (connections_after tables [] stored) }
    ensures given { (tables : List Table) (given : List GivenIsns) (stored : List Stored)
        → IsMap (connections_after tables (given_after [] given) stored) }
    ensures judged { (tables : List Table) (before after : List Stored) → sayings_from tables [] (before ++ after)
        ≡ sayings_from tables [] before ++ sayings_from tables (connections_after tables [] before) after }
{}

/// Given initial sequence numbers are those of a handshake: where a stored datagram that ends a handshake with
/// them passes, the connections behind it are those with the given one. What follows is judged alike.
pub fn given_isns_are_those_of_a_handshake()
    ensures { (tables : List Table) (held : List Connection) (time : ℕ) (bytes : List ℕ) (d : Segment) (g : GivenIsns)
        → reading bytes ≡ Read d → EndsHandshake d g → is_pass (hear tables held time bytes).saying ≡ true
        → (hear tables held time bytes).connections ≡ and_given g held }
{}
