//! What a word is asked for, of what is given.
ghost use Rattle.std.specs.Prelude.{◌≡◌, codes, is_some, option_map};
ghost use Rattle.scope_run.specs.WordsAnswers.{AsksAs, FilesOf, PlanAskedBy, SessionsAskedBy, word_or_none};
ghost use Rattle.scope_run.specs.Meanings.{pairs, text_of};

use crate::asked::{
    Asked, CheckAsked, DrawAsked, EchoAsked, PacketAsked, PlanAsked, SessionsAsked,
};
use crate::entries::{Entry, has, text_of};
use crate::line::Files;
use crate::word::Word;

/// The text of an argument; empty where it isn't given.
fn argument<'w>(name: &[u8], given: &[Entry<'w>]) -> &'w [u8]
    ensures { result.now ≡ word_or_none (text_of name.now (pairs given.now)) }
{
    match text_of(name, given) {
        Some(text) => text,
        None => b"",
    }
}

fn sessions_asked<'w>(given: &[Entry<'w>]) -> SessionsAsked<'w>
    ensures { SessionsAskedBy (pairs given.now) result }
{
    SessionsAsked {
        has_isns: has(b"--isn", given),
        all: has(b"--all", given),
        json: has(b"--json", given),
        svg: has(b"--svg", given),
        every: text_of(b"--every", given),
        laps: text_of(b"--laps", given),
        retire: text_of(b"--retire", given),
        draw: text_of(b"--draw", given),
        from: text_of(b"--from", given),
        to: text_of(b"--to", given),
    }
}

fn plan_asked<'w>(given: &[Entry<'w>]) -> PlanAsked<'w>
    ensures { PlanAskedBy (pairs given.now) result }
{
    PlanAsked {
        draw: has(b"--draw", given),
        svg: has(b"--svg", given),
        lead: argument(b"LEAD", given),
        lag: argument(b"LAG", given),
        from: argument(b"FROM", given),
        to: argument(b"TO", given),
    }
}

/// What the word is asked for.
pub(crate) fn asked_of<'w>(word: Word, given: &[Entry<'w>]) -> Asked<'w>
    ensures { AsksAs word (pairs given.now) result }
{
    match word {
        Word::Lines => Asked::Lines,
        Word::Check => Asked::Check(CheckAsked {
            has_isns: has(b"--isn", given),
            all: has(b"--all", given),
        }),
        Word::Sessions => Asked::Sessions(sessions_asked(given)),
        Word::Why => Asked::Why(PacketAsked {
            has_isns: has(b"--isn", given),
            with_key: has(b"--keys", given),
            number: argument(b"N", given),
        }),
        Word::Keys => Asked::Keys,
        Word::Plan => Asked::Plan(plan_asked(given)),
        Word::Draw => Asked::Draw(DrawAsked {
            has_keys: has(b"KEYS", given),
            svg: has(b"--svg", given),
        }),
        Word::Echo => Asked::Echo(EchoAsked {
            has_keys: has(b"KEYS", given),
        }),
    }
}

/// The files that are named.
pub(crate) fn files_of<'w>(given: &[Entry<'w>]) -> Files<'w>
    ensures { FilesOf (pairs given.now) result }
{
    Files {
        keys: text_of(b"KEYS", given),
        isns: text_of(b"--isn", given),
        input: text_of(b"-r", given),
    }
}
