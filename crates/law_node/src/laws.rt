//! Many connections on one node don't touch each other.
ghost use Rattle.std.specs.Prelude.{List};
ghost use Rattle.book_base.specs.declared.address.Pair.{Pair};
ghost use Rattle.book_keys.specs.Rows.{Row};
ghost use Rattle.book_cmd_node.specs.declared.node.NodeEvent.{NodeEvent};
ghost use Rattle.law_node.specs.Alone.{Alone};

/// Each connection of a node gives the answers that it would give alone, whatever events of others
/// come between: for each pair none of whose own events found the node full, the answers to the
/// clock's events, to those on the pair and to the datagrams between its sockets are those of a run
/// of these events by themselves. It holds for every table and every list of events.
pub fn each_is_alone()
    ensures { (pair : Pair) (rows : List Row) (events : List NodeEvent) → Alone pair rows events }
{}
