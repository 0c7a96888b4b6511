//! What holds of every connection of a stack, whatever the others do.
ghost use Rattle.std.specs.Prelude.{◌≤◌, ℕ, List};
ghost use Rattle.book_base.specs.declared.address.Pair.{Pair};
ghost use Rattle.book_cmd_node.specs.NodeRuns.{most_ends};
ghost use Rattle.book_keys.specs.Rows.{Row};
ghost use Rattle.book_stack.specs.Calls.{Call};
ghost use Rattle.book_stack.specs.Stacks.{StackState};
ghost use Rattle.law_ends.specs.Single.{IsSingleAtItsRows};
ghost use Rattle.law_ends.specs.Turns.{HasItsTurn};

/// Each connection of a stack that holds at most 1024 ends answers as if it were alone, whatever is
/// called at the others, rows added and withdrawn among it: for each pair the answers to the clock's
/// events, to those on the pair, the timer's among them, and to the datagrams between its sockets are
/// those of a node that holds nothing else and meets these events by themselves, each at the rows
/// that the stack then has.
pub fn each_is_single_at_its_rows()
    ensures { (pair : Pair) (rows : List Row) (most : ℕ) (calls : List Call) → most ≤ most_ends
        → IsSingleAtItsRows pair rows most calls }
{}

/// A connection that is held and before which so many others stand in line is asked for its next
/// segment within one call of `output` more than these, whenever they are called, and wherever the
/// stack begins. A call hands out at most one datagram, so at most as many are handed out before its
/// turn as others stood before it.
pub fn each_has_its_turn()
    ensures { (pair : Pair) (ahead : ℕ) (s : StackState) (times : List ℕ) → HasItsTurn pair ahead s times }
{}
