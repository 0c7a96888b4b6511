//! The options and arguments of each word.
ghost use Rattle.std.specs.Prelude.{◌≡◌, map};
ghost use Rattle.std.specs.List.{list_any};
ghost use Rattle.std.specs.Str.{bytes_eq};
ghost use Rattle.scope_run.specs.Tables.{arguments_of, flags_of, options_with_draw_of};
ghost use Rattle.scope_run.specs.Tables.{required_of, valued_options_of};

use crate::word::Word;

/// Names as they are written.
pub(crate) type Names = &'static [&'static str];

const NONE: Names = &[];

const INPUT: Names = &["-r"];

const KEYS: Names = &["KEYS"];

/// The options of a word that have a value.
pub(crate) fn valued_options_of(word: Word) -> Names
    ensures { map (λ n. n.now) result.now ≡ valued_options_of word }
{
    match word {
        Word::Check | Word::Why => &["--isn", "-r"],
        Word::Sessions => &[
            "--draw", "--from", "--to", "--isn", "-r", "--retire", "--every", "--laps",
        ],
        Word::Keys => NONE,
        Word::Lines | Word::Plan | Word::Draw | Word::Echo => INPUT,
    }
}

/// The options of a word that have no value.
pub(crate) fn flags_of(word: Word) -> Names
    ensures { map (λ n. n.now) result.now ≡ flags_of word }
{
    match word {
        Word::Lines | Word::Keys | Word::Echo => NONE,
        Word::Check => &["--all"],
        Word::Sessions => &["--svg", "--all", "--json"],
        Word::Why => &["--keys"],
        Word::Plan => &["--draw", "--svg"],
        Word::Draw => &["--svg"],
    }
}

/// The options of a word that are there only beside `--draw`.
pub(crate) fn options_with_draw_of(word: Word) -> Names
    ensures { map (λ n. n.now) result.now ≡ options_with_draw_of word }
{
    match word {
        Word::Sessions => &["--svg", "--from", "--to"],
        Word::Plan => &["--svg"],
        _ => NONE,
    }
}

/// The arguments of a word, in their order.
pub(crate) fn arguments_of(word: Word) -> Names
    ensures { map (λ n. n.now) result.now ≡ arguments_of word }
{
    match word {
        Word::Lines => NONE,
        Word::Why => &["KEYS", "N"],
        Word::Plan => &["KEYS", "LEAD", "LAG", "FROM", "TO"],
        _ => KEYS,
    }
}

/// The arguments that must be there.
pub(crate) fn required_of(word: Word) -> Names
    ensures { map (λ n. n.now) result.now ≡ required_of word }
{
    match word {
        Word::Draw | Word::Echo => NONE,
        _ => arguments_of(word),
    }
}

/// Whether a text is one of the names.
pub(crate) fn is_among(text: &[u8], names: Names) -> bool
    ensures { result ≡ list_any (λ n. bytes_eq text.now n) (map (λ n. n.now) names.entry.now) }
{
    for name in names {
        if text == name.as_bytes() {
            return true;
        }
    }
    false
}
