//! A guard that goes on with what was saved.
ghost use Rattle.std.specs.Prelude.{◌≡◌, ◌≤◌, ◌<◌, ◌+◌, ℕ, List, Option, Some};
ghost use Rattle.book_base.specs.declared.address.Pair.{Pair};
ghost use Rattle.book_shim.specs.declared.kept.Isns.{Isns};
ghost use Rattle.book_shim.specs.declared.kept.Kept.{Kept};
ghost use Rattle.book_shim.specs.Keeping.{Setting, fresh};
ghost use Rattle.book_shim.specs.Leaving.{outbound};
ghost use Rattle.book_shim.specs.Arriving.{inbound};
ghost use Rattle.book_shim.specs.Saving.{resumed, saved_stretch};
ghost use Rattle.law_shim.specs.Unsaved.{Coming, kept_after, IsApart, NoneWasSaved, GoesOn};
ghost use Rattle.law_shim.specs.Restoring.{IsBehind, IsQuiet, IsClose, AreSentAlike, AreTakenAlike};

/// A guard that goes on with what was saved of another, less than a stretch of numbers ago, answers each datagram as
/// that one does: the same segment is sealed and the same one handed on, or it is refused for the same reason. So it
/// is for each whose number is at most 2^31 - 2^29 from the one that is next; and it stays behind the other one.
pub fn restored_answers_the_same()
    ensures begins { (g : Kept) (isns : Isns) (sent heard : ℕ) → g.isns ≡ Some isns → IsQuiet g
        → sent ≤ g.sent → g.sent < sent + saved_stretch → heard ≤ g.heard → g.heard < heard + saved_stretch
        → IsBehind g (resumed isns sent heard g.current) }
    ensures leaving { (here : Setting) (pair : Pair) (g r : Kept) (bytes : List ℕ)
        → IsBehind g r → IsClose g.sent bytes
        → AreSentAlike (outbound here pair g bytes) (outbound here pair r bytes) }
    ensures arriving { (here : Setting) (pair : Pair) (g r : Kept) (bytes : List ℕ)
        → IsBehind g r → IsClose g.heard bytes
        → AreTakenAlike g r bytes (inbound here pair g bytes) (inbound here pair r bytes) }
{}

/// Whatever datagrams come since what is kept was saved last, of the kernel or of the network: until it is to be saved
/// again, the saved numbers are less than a stretch behind, and so is a guard that goes on with them.
pub fn saved_is_near()
    ensures { (pair : Pair) (saved : Kept) (isns : Isns) (events : List Coming)
        → saved.isns ≡ Some isns → IsApart saved
        → NoneWasSaved pair saved events → GoesOn saved isns (kept_after pair saved events) }
{}

/// The own SYN that is out is never that of the connection in use: not in a guard that begins afresh, nor in one that
/// goes on with what was saved, and so after whatever comes.
pub fn stays_apart()
    ensures afresh { IsApart fresh }
    ensures anew { (isns : Isns) (sent heard : ℕ) (current : Option ℕ) → IsApart (resumed isns sent heard current) }
    ensures later { (pair : Pair) (g : Kept) (events : List Coming) → IsApart g → IsApart (kept_after pair g events) }
{}
