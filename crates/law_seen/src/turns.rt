//! From an old key to a new one.
ghost use Rattle.std.specs.Prelude.{List};
ghost use Rattle.std.specs.List.{AllByRecursion};
ghost use Rattle.book_base.specs.declared.end.End.{End};
ghost use Rattle.book_keys.specs.Choices.{Numbered};
ghost use Rattle.book_link.specs.declared.event.Event.{Event};
ghost use Rattle.book_link.specs.Runs.{run};
ghost use Rattle.book_link.specs.Worlds.{Setup, World};
ghost use Rattle.law_link.specs.Laws.{SetupFits, EventFits};
ghost use Rattle.law_seen.specs.Newest.{IsAskedFor};
ghost use Rattle.law_seen.specs.Turning.{HasCurrent, MaySendWith, SendsUnder, TakesPlace};

/// In every run: where the other end prefers a row that this end may send with, and one segment that the
/// other end sends now comes and is taken, whatever this end sends next is under that row's key. So once both
/// ends prefer the new key, as from the start of its lifetimes on, and each heard one segment of the
/// other, both send under it.
pub fn rollover_takes_place()
    ensures { (setup : Setup) (events : List Event) (e : End) → SetupFits setup → AllByRecursion EventFits events
        → TakesPlace setup (run setup events) e }
{}

/// Where both tables have a newest row for the pair, and these meet, the other end asks for it from its start on:
/// once the other end accepts under its own, and this end may send with its own. So by then, and one segment
/// from each end to the other, both send under the new key.
pub fn newest_is_asked_for()
    ensures { (setup : Setup) (w : World) (e : End) → IsAskedFor setup w e }
{}

/// An end sends under its current row's key while it may, and that stays its current row.
pub fn current_key_is_sent_with()
    ensures { (setup : Setup) (w : World) (e : End) (q : Numbered) → HasCurrent w e q.number → MaySendWith setup w e q
        → SendsUnder setup w e q }
{}
