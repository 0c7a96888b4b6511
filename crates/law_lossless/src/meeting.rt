//! Two stacks over a way that loses nothing.
ghost use Rattle.std.specs.Prelude.{◌≤◌, ℕ, List, [], ◌∷◌, ◌++◌};
ghost use Rattle.std.specs.List.{AllByRecursion};
ghost use Rattle.book_base.specs.declared.end.End.{End};
ghost use Rattle.book_base.specs.declared.end.End.TheVariants.{A};
ghost use Rattle.book_cmd_node.specs.NodeRuns.{most_ends};
ghost use Rattle.book_keys.specs.Rows.{Row};
ghost use Rattle.book_link.specs.declared.event.Event.{Event};
ghost use Rattle.book_link.specs.declared.event.Event.TheVariants.{At};
ghost use Rattle.book_link.specs.declared.event.Action.TheVariants.{Give};
ghost use Rattle.book_link.specs.Runs.{run};
ghost use Rattle.book_link.specs.Storm.{storm_setup, storm_starts};
ghost use Rattle.book_link.specs.Worlds.{Setup};
ghost use Rattle.book_stack.specs.Calls.{Call};
ghost use Rattle.book_stack.specs.Runs.{stack_after};
ghost use Rattle.book_stack.specs.Stacks.{empty_stack};
ghost use Rattle.law_link.specs.Headline.{GivesFew};
ghost use Rattle.law_link.specs.Laws.{SetupFits, TablesFit, EventFits};
ghost use Rattle.law_progress.specs.Progress.{IsUp, IsWaiting};
ghost use Rattle.law_lossless.specs.Lossless.{AreInStep};
ghost use Rattle.law_lossless.specs.Meeting.{Stacks, stack_at, Holds, StacksDeliver};
ghost use Rattle.law_lossless.specs.Once.{IsAt, NoneExpired, SendsOnce};

/// A stack of at most 1024 ends, whatever was called before, sends nothing again while no timer has
/// expired: where none has at a time, whatever is called at that time, datagrams that come and calls
/// for what is due among it, makes no plain event by which something is sent again, and then none
/// has expired either. Calls of the user that send are left out, as its user makes none.
pub fn nothing_is_sent_twice()
    ensures { (rows : List Row) (most : ℕ) (calls later : List Call) (now : ℕ) → most ≤ most_ends
        → AllByRecursion (IsAt now) later →
        NoneExpired now (stack_after (empty_stack rows most) calls)
        → SendsOnce now (stack_after (empty_stack rows most) calls) later }
{}

/// Where two stacks hold the ends of a link that are in step, and each session was given fewer than
/// 2^31 bytes, as many rounds as numbers are unsent at either end, two more, and a take at both, all
/// at one time at which no timer has expired, deliver all: the bytes that were given to both ends are
/// acknowledged, and so is the FIN of each that was closed; the bytes are taken at the partner, and
/// the end of a closed stream is reached there. Nothing is sent again. In a round each stack is called
/// for what is due, once or as often as one likes, and the other hears at once what it hands out.
pub fn stacks_deliver()
    ensures { (setup : Setup) (events : List Event) → SetupFits setup → TablesFit setup
        → AllByRecursion EventFits events → GivesFew (run setup events)
        → StacksDeliver setup (run setup events) }
{}

/// The premises are met: two stacks at which a connection was started from both sides, each with its
/// table of the link of a storm, hold that link's ends, which are in step, and a byte that was given
/// to one of them waits.
pub fn meeting_is_met()
    ensures { (s : Stacks) × (up : IsUp storm_setup (run storm_setup (storm_starts ++ At A (Give (1 ∷ [])) ∷ [])) 0 0)
        × AreInStep storm_setup (run storm_setup (storm_starts ++ At A (Give (1 ∷ [])) ∷ [])) 0 0 up
        × ((e : End) → Holds storm_setup (run storm_setup (storm_starts ++ At A (Give (1 ∷ [])) ∷ [])) 0 e
        (stack_at s e) (up.session e).state)
        × IsWaiting (up.session A).state }
{}
