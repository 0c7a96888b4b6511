//! The top call.
ghost use Rattle.std.specs.Prelude.{◌≡◌};
ghost use Rattle.ao_base.specs.Outside.{Side};
ghost use Rattle.scope_run.specs.Acts.{Acts};
ghost use Rattle.scope_run.specs.Runs.{Runs};
ghost use Rattle.scope_run.specs.Sides.{Given, Sides};

use crate::asked::Asked;
use crate::halt::status_at;
use crate::tell::tell;
use crate::{check, draw, echo, keys, lines, plan, sessions, why};
use ao_base::{Sink, Source};
use book_scope_run::Halt;
use std::alloc::Global;

/// Does what the words ask for, or ends early; tells nothing.
fn act<K: Source, J: Source, I: Source, O: Sink>(
    alloc: Global,
    asked: &Asked<'_>,
    keys: &mut K,
    isns: &mut J,
    input: &mut I,
    out: &mut O,
) -> Result<bool, Halt>
    ensures { (g : Given) × Acts asked.now g
        (record { keys = K.side keys.old; isns = J.side isns.old; input = I.side input.old; out = O.side out.old })
        (record { keys = K.side keys.new; isns = J.side isns.new; input = I.side input.new; out = O.side out.new })
        result }
{
    match asked {
        Asked::Lines => lines::act(alloc, input, out),
        Asked::Check(asked) => check::act(alloc, *asked, keys, isns, input, out),
        Asked::Sessions(asked) => sessions::act(alloc, asked, keys, isns, input, out),
        Asked::Why(asked) => why::act(alloc, asked, keys, isns, input, out),
        Asked::Keys => keys::act(alloc, keys, out),
        Asked::Plan(asked) => plan::act(alloc, asked, keys, input, out),
        Asked::Draw(asked) => draw::act(alloc, *asked, keys, input, out),
        Asked::Echo(asked) => echo::act(alloc, *asked, keys, input, out),
    }
}

/// Does what the words ask for, and answers the program's status.
///
/// `keys` is the key file, `isns` that of initial sequence numbers, `input` standard input or the file in its place,
/// `out` standard output and `err` standard error. The words are looked at first; then the key file is read, then the
/// initial sequence numbers, then the input, each only where the words ask for it. Where one of these can't be read,
/// what comes after it isn't. `plan`, `draw` and `echo` judge the key file before they read the input; `check`,
/// `sessions` and `why` judge it, and then the initial sequence numbers, when both were read, and before they read the
/// input. `plan`, `draw`, `echo` and `keys` write when all was read, `lines`, `check` and `sessions` as their calls
/// below say.
///
/// | status | comes | text for `err` |
/// |---|---|---|
/// | 0 | done | none |
/// | 1 | done, with something amiss; or there is no node, no connection or no such session | none, or `no ..` |
/// | 2 | the words are refused, and nothing is read; or no row is named so | `usage: ..`, or `no row ..` |
/// | 3 | the key file is refused, or has over 1,048,576 bytes; the input isn't read | `keys: ..` |
/// | 4 | the initial sequence numbers, or the input, are refused or too long | `isn: ..`, `input: ..` |
/// | 5 | a source that is read failed | `keys: read fault`, `isn: read fault`, `input: read fault` |
/// | 6 | `out` failed | `write fault` |
/// | 7 | memory ran out | `memory` |
///
/// A fault of `err` changes no status. Where memory runs out while a text is made, `memory` is told in its place.
pub fn run<K: Source, J: Source, I: Source, O: Sink, E: Sink>(
    alloc: Global,
    asked: &Asked<'_>,
    keys: &mut K,
    isns: &mut J,
    input: &mut I,
    out: &mut O,
    err: &mut E,
) -> u8
    ensures { (g : Given) × Runs asked.now g
        (record { keys = K.side keys.old; isns = J.side isns.old; input = I.side input.old; out = O.side out.old })
        (record { keys = K.side keys.new; isns = J.side isns.new; input = I.side input.new; out = O.side out.new })
        (E.side err.old) (E.side err.new) result }
{
    let end = act(alloc, asked, keys, isns, input, out);
    tell(alloc, asked.retired_word(), end, err);
    status_at(end)
}
