//! What holds of every run of a stack.
ghost use Rattle.std.specs.Prelude.{◌≡◌, ◌≤◌, ℕ, true, List};
ghost use Rattle.book_base.specs.declared.address.Pair.{Pair};
ghost use Rattle.book_cmd_node.specs.NodeRuns.{most_ends};
ghost use Rattle.book_keys.specs.Rows.{Row};
ghost use Rattle.book_stack.specs.Calls.{Call, Output, Rests, call};
ghost use Rattle.book_stack.specs.Runs.{IsNodeRun, keeps_rows, stack_after};
ghost use Rattle.book_stack.specs.Stacks.{StackState, empty_stack, next_deadline};
ghost use Rattle.book_segments.specs.Segments.{Segment};
ghost use Rattle.book_segments.specs.Spelling.{Fits};
ghost use Rattle.law_stack.specs.Ending.{RestsWithin};
ghost use Rattle.law_stack.specs.Handed.{IsHandedWell, IsTakenAlike};
ghost use Rattle.law_stack.specs.Resting.{AreAtRest, IsBefore, IsTimely};
ghost use Rattle.law_stack.specs.Ruled.{IsRuledRun};
ghost use Rattle.law_stack.specs.Single.{IsSingle};

/// Whatever is called at a stack, wherever it begins: its ends, and the answers to the plain events
/// that the calls make, are those of the plain run of these events. `run` says so of calls that keep
/// the rows of the table, `ruled` of all calls, each event at the rows of its time.
pub fn runs_are_a_nodes()
    ensures run { (s : StackState) (calls : List Call) → keeps_rows calls ≡ true → IsNodeRun s calls }
    ensures ruled { (s : StackState) (calls : List Call) → IsRuledRun s calls }
{}

/// Each connection of a stack that holds at most 1024 ends answers as if it were alone, whatever is
/// called at the others: for each pair the answers to the clock's events, to those on the pair, the
/// timer's among them, and to the datagrams between its sockets are those of a node's run of these
/// events by themselves. It holds for every table and all calls that keep its rows.
pub fn each_is_single()
    ensures { (pair : Pair) (rows : List Row) (most : ℕ) (calls : List Call) → most ≤ most_ends
        → keeps_rows calls ≡ true →
        IsSingle pair rows most calls }
{}

/// Once a stack of at most 1024 ends has handed out all that is due, whatever was called before,
/// rows added and withdrawn among it, no end that is held has anything left to send but for want of
/// a row to send it with: asked once more each makes nothing, and who lacks but a row stands in line
/// for the next second. The timer of an end that doesn't stand in line runs exactly where it would
/// send something again, or until TIME-WAIT ends. No timer has expired then, and the deadline that
/// is told for the next call is after now, and in time for each timer and for who stands in line.
pub fn nothing_due_is_left()
    ensures quiet { (rows : List Row) (most : ℕ) (calls : List Call) (now : ℕ) → most ≤ most_ends →
        let d = call (Output now) (stack_after (empty_stack rows most) calls) in d.answer ≡ Rests → AreAtRest d.stack }
    ensures timely { (rows : List Row) (most : ℕ) (calls : List Call) (now : ℕ) → most ≤ most_ends →
        let d = call (Output now) (stack_after (empty_stack rows most) calls) in d.answer ≡ Rests
        → IsTimely now d.stack }
{}

/// Whoever sleeps until the deadline that was told misses nothing: asked for what is due at a time
/// before it, with nothing else called since, the stack answers that nothing is.
pub fn nothing_is_due_before_the_deadline()
    ensures { (rows : List Row) (most : ℕ) (calls : List Call) (now later : ℕ) → most ≤ most_ends →
        let d = call (Output now) (stack_after (empty_stack rows most) calls) in d.answer ≡ Rests →
        now ≤ later → IsBefore later (next_deadline d.stack) → (call (Output later) d.stack).answer ≡ Rests }
{}

/// A stack of at most 1024 ends, whatever was called before, has handed out all that is due after
/// finitely many datagrams: `output`, called again and again at one time, answers at last that
/// nothing is.
pub fn output_comes_to_rest()
    ensures { (rows : List Row) (most : ℕ) (calls : List Call) (now : ℕ) → most ≤ most_ends →
        (n : ℕ) × RestsWithin n now (stack_after (empty_stack rows most) calls) }
{}

/// A datagram as a stack hands it out is a datagram too, its checksum is right where that of the
/// segment is that its end made, and each end that hears it answers and goes on as if it heard that
/// segment: a checksum of ffff stands for the same number as one of 0000 in one's complement, and
/// no MAC covers it.
pub fn handed_is_taken_alike()
    ensures well { (d : Segment) → Fits d → IsHandedWell d }
    ensures alike { (d : Segment) → Fits d → IsTakenAlike d }
{}
