//! The word `sessions`.
ghost use Rattle.std.specs.Prelude.{◌≡◌, ℕ, List, option_map};
ghost use Rattle.ao_base.specs.Outside.{Side};
ghost use Rattle.scope_run.specs.Acts.{SessionsBy};
ghost use Rattle.scope_run.specs.Sides.{Given, Sides};

use crate::asked::SessionsAsked;
use crate::{ladder, retire, tables};
use ao_base::{Sink, Source};
use book_scope_run::Halt;
use std::alloc::Global;

/// Writes whether keys may go, where the words name some; else draws a session, where they number one; else writes
/// the tables.
pub(crate) fn act<K: Source, J: Source, I: Source, O: Sink>(
    alloc: Global,
    asked: &SessionsAsked<'_>,
    keys: &mut K,
    isns: &mut J,
    input: &mut I,
    out: &mut O,
) -> Result<bool, Halt>
    ensures { (g : Given) × SessionsBy (option_map (λ w. w.now) asked.now.retire)
        (option_map (λ w. w.now) asked.now.draw) asked.now g
        (record { keys = K.side keys.old; isns = J.side isns.old; input = I.side input.old; out = O.side out.old })
        (record { keys = K.side keys.new; isns = J.side isns.new; input = I.side input.new; out = O.side out.new })
        result }
{
    match asked.retire {
        Some(word) => retire::act(alloc, word, asked, keys, isns, input, out),
        None => match asked.draw {
            Some(text) => ladder::act(alloc, text, asked, keys, isns, input, out),
            None => tables::act(alloc, asked, keys, isns, input, out),
        },
    }
}
