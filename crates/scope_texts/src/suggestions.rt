//! Which known word is meant by an unknown one.
ghost use Rattle.std.specs.Prelude.{◌≡◌, ◌<◌, ◌≤◌, ◌==◌, drop, length, map, not, option_map, slice_index};
ghost use Rattle.std.specs.List.{find};
ghost use Rattle.std.specs.Str.{bytes_eq};
ghost use Rattle.book_scope_texts.specs.Suggestions.{behind_first, is_edit_within, meant_word, parted};

fn is_same(one: &[u8], other: &[u8]) -> bool
    ensures { result ≡ bytes_eq one.now other.now }
{
    one == other
}

/// Whether the bytes at a place of two words differ.
fn differ_at(one: &[u8], other: &[u8], at: usize) -> bool
    requires one { at < length one.now }
    requires other { at < length other.now }
    ensures { result ≡ not (slice_index one.now at == slice_index other.now at) }
{
    one[at] != other[at]
}

/// How many bytes two words begin with in common.
fn common_length(one: &[u8], other: &[u8]) -> usize
    ensures one { drop result one.now ≡ (parted one.now other.now).one }
    ensures other { drop result other.now ≡ (parted one.now other.now).other }
    ensures in_one { result ≤ length one.now }
    ensures in_other { result ≤ length other.now }
{
    let most = one.len().min(other.len());
    for at in 0..most {
        if differ_at(one, other, at) {
            return at;
        }
    }
    most
}

fn behind_first(word: &[u8]) -> &[u8]
    ensures { result.now ≡ behind_first word.now }
{
    match word {
        [_, rest @ ..] => rest,
        [] => word,
    }
}

/// Whether one word becomes the other by at most one edit.
#[tactic(auto, unfolding(book_scope_texts::specs::Suggestions::is_edit_within))]
fn is_one_edit(one: &[u8], other: &[u8]) -> bool
    ensures { result ≡ is_edit_within 1 one.now other.now }
{
    let at = common_length(one, other);
    let one = &one[at..];
    let other = &other[at..];
    is_same(behind_first(one), behind_first(other))
        || (is_same(one, behind_first(other)) || is_same(behind_first(one), other))
}

/// Whether one word becomes the other by at most two edits.
#[tactic(auto, unfolding(book_scope_texts::specs::Suggestions::is_edit_within))]
fn is_two_edits(one: &[u8], other: &[u8]) -> bool
    ensures { result ≡ is_edit_within 2 one.now other.now }
{
    let at = common_length(one, other);
    let one = &one[at..];
    let other = &other[at..];
    is_one_edit(behind_first(one), behind_first(other))
        || (is_one_edit(one, behind_first(other)) || is_one_edit(behind_first(one), other))
}

/// The first of the words that one edit away is.
fn one_edit_away<'a>(known: &[&'a str], word: &[u8]) -> Option<&'a str>
    ensures { option_map (λ s. s.now) result ≡ find (λ k. is_edit_within 1 word.now k) (map (λ w. w.now) known.now) }
{
    for known_word in known {
        if is_one_edit(word, known_word.as_bytes()) {
            return Some(*known_word);
        }
    }
    None
}

/// The first of the words that two edits away is.
fn two_edits_away<'a>(known: &[&'a str], word: &[u8]) -> Option<&'a str>
    ensures { option_map (λ s. s.now) result ≡ find (λ k. is_edit_within 2 word.now k) (map (λ w. w.now) known.now) }
{
    for known_word in known {
        if is_two_edits(word, known_word.as_bytes()) {
            return Some(*known_word);
        }
    }
    None
}

/// The known word that is meant by another one: the first that one edit away is, else the first that two
/// are; an edit changes, removes or adds a byte. None exactly where there is no such word.
#[tactic(auto, unfolding(book_scope_texts::specs::Suggestions::meant_word))]
pub fn meant_word<'a>(known: &[&'a str], word: &[u8]) -> Option<&'a str>
    ensures { option_map (λ s. s.now) result ≡ meant_word (map (λ w. w.now) known.now) word.now }
{
    one_edit_away(known, word).or_else(|| two_edits_away(known, word))
}
