//! The past of two stacks is the past of a link.
ghost use Rattle.std.specs.Prelude.{ℕ, List};
ghost use Rattle.std.specs.List.{AllByRecursion};
ghost use Rattle.book_base.specs.declared.end.End.{End};
ghost use Rattle.book_link.specs.Worlds.{Setup};
ghost use Rattle.law_link.specs.Laws.{EventFits};
ghost use Rattle.law_ends.specs.Doings.{Doing, DoingFits};
ghost use Rattle.law_ends.specs.Users.{FreshIsns};
ghost use Rattle.law_ends.specs.Links.{link_events};
ghost use Rattle.law_ends.specs.Ends.{IsPastOfLink};

/// Whatever is called at two stacks, in whatever order, there is a run of a link that mirrors them:
/// the run of the events that stand for their calls. Its ends have the rows and clocks of the stacks;
/// where a stack holds the link's pair, the end that it holds is the live session of the link; and
/// each session of the link was given, and delivered, what its user gave and was told. The calls are
/// any: bytes that come are any bytes at any time, be they lost, late, repeated, altered or forged;
/// the clocks are independent; rows are added and withdrawn; and other pairs are used beside this one.
/// The one premise, `FreshIsns`, is that no end begins two sessions of the pair with one initial
/// sequence number. `fits` says that the events fit where the calls do, as the laws of a link ask.
pub fn the_past_of_two_stacks_is_the_past_of_a_link()
    ensures mirrors { (setup : Setup) (most : End → ℕ) (doings : List Doing)
        → FreshIsns setup most doings → IsPastOfLink setup most doings }
    ensures fits { (setup : Setup) (most : End → ℕ) (doings : List Doing)
        → AllByRecursion DoingFits doings → AllByRecursion EventFits (link_events setup most doings) }
{}
