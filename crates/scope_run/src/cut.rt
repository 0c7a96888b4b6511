//! The parts of a word of the command line.
ghost use Rattle.std.specs.Prelude.{◌≡◌, ◌≤◌, length, option_map};
ghost use Rattle.scope_run.specs.Texts.{asks_help, behind_equals, behind_letter, equals_at};
ghost use Rattle.scope_run.specs.Texts.{head_of, is_dashed, is_long, value_of};

/// Whether a text begins with a hyphen, and is more than that.
pub(crate) fn is_dashed(text: &[u8]) -> bool
    ensures { result ≡ is_dashed text.now }
{
    match text {
        [first, _, ..] => *first == b'-',
        _ => false,
    }
}

/// Whether a text begins with two hyphens.
fn is_long(text: &[u8]) -> bool
    ensures { result ≡ is_long text.now }
{
    match text {
        [first, second, ..] => *first == b'-' && *second == b'-',
        _ => false,
    }
}

/// Whether help is asked for.
pub(crate) fn asks_help(text: &[u8]) -> bool
    ensures { result ≡ asks_help text.now }
{
    text == b"-h".as_slice() || text == b"--help".as_slice()
}

/// Where the first `=` of a text stands; without one, how long the text is.
fn equals_at(text: &[u8]) -> usize
    ensures value { result ≡ equals_at text.now }
    ensures within { result ≤ length text.now }
{
    for at in 0..text.len() {
        if text[at] == b'=' {
            return at;
        }
    }
    text.len()
}

/// What stands behind the first `=` of a text; None where it has none.
fn behind_equals(text: &[u8]) -> Option<&[u8]>
    ensures { option_map (λ v. v.now) result ≡ behind_equals text.now }
{
    let at = equals_at(text);
    if at == text.len() {
        None
    } else {
        Some(&text[at + 1..])
    }
}

/// The value of a short option: what stands behind its letter, without an `=` in front.
fn behind_letter(text: &[u8]) -> Option<&[u8]>
    ensures { option_map (λ v. v.now) result ≡ behind_letter text.now }
{
    match text {
        [_, _, b'=', value @ ..] => Some(value),
        [_, _, _, ..] => Some(&text[2..]),
        _ => None,
    }
}

/// The value that an option has within its word.
pub(crate) fn value_of(text: &[u8]) -> Option<&[u8]>
    ensures { option_map (λ v. v.now) result ≡ value_of text.now }
{
    if is_long(text) {
        behind_equals(text)
    } else {
        behind_letter(text)
    }
}

/// The name of an option, as it is written in its word.
pub(crate) fn head_of(text: &[u8]) -> &[u8]
    ensures { result.now ≡ head_of text.now }
{
    if !is_long(text) {
        return &text[..text.len().min(2)];
    }
    &text[..equals_at(text)]
}
