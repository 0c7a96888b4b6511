//! The options and arguments that are given, by their names.
ghost use Rattle.std.specs.Prelude.{◌≡◌, map, not, option_map};
ghost use Rattle.std.specs.List.{find};
ghost use Rattle.scope_run.specs.Meanings.{has, pairs, text_of};
ghost use Rattle.scope_run.specs.Steps.{first_lacking};

use crate::words_tables::Names;

/// An option or an argument that is given, with its text; of an option without a value this is empty.
#[derive(Clone, Copy)]
pub(crate) struct Entry<'w> {
    pub(crate) name: &'w [u8],
    pub(crate) text: &'w [u8],
}

/// The text that is given by this name.
pub(crate) fn text_of<'w>(name: &[u8], given: &[Entry<'w>]) -> Option<&'w [u8]>
    ensures { option_map (λ t. t.now) result ≡ text_of name.now (pairs given.now) }
{
    for entry in given {
        if name == entry.name {
            return Some(entry.text);
        }
    }
    None
}

/// Whether something is given by this name.
pub(crate) fn has(name: &[u8], given: &[Entry<'_>]) -> bool
    ensures { result ≡ has name.now (pairs given.now) }
{
    text_of(name, given).is_some()
}

/// The first of the names that isn't given.
pub(crate) fn first_lacking(names: Names, given: &[Entry<'_>]) -> Option<&'static [u8]>
    ensures { option_map (λ n. n.now) result ≡ first_lacking (map (λ n. n.now) names.entry.now) (pairs given.now) }
{
    for name in names {
        if !has(name.as_bytes(), given) {
            return Some(name.as_bytes());
        }
    }
    None
}

/// The first of the names that is given.
pub(crate) fn first_given(names: Names, given: &[Entry<'_>]) -> Option<&'static [u8]>
    ensures { option_map (λ n. n.now) result ≡ find (λ n. has n (pairs given.now)) (map (λ n. n.now) names.entry.now) }
{
    for name in names {
        if has(name.as_bytes(), given) {
            return Some(name.as_bytes());
        }
    }
    None
}
