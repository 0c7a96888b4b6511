//! The first word of an event's line.
ghost use Rattle.std.specs.Prelude.{◌≡◌, All, MatchOption, false, true};
ghost use Rattle.std.specs.Str.{bytes_eq};
ghost use Rattle.cmd_node.specs.declared.name.Name.{Name as OneName};
ghost use Rattle.cmd_node.specs.Names.{name_text};

/// The first word of an event's line.
#[derive(Clone, Copy)]
pub(crate) enum Name {
    Clock,
    Inject,
    Open,
    Listen,
    Start,
    Give,
    Take,
    Send,
    Resend,
    Close,
    Abort,
    Remove,
}

const NAMES: [Name; 12] = [
    Name::Clock,
    Name::Inject,
    Name::Open,
    Name::Listen,
    Name::Start,
    Name::Give,
    Name::Take,
    Name::Send,
    Name::Resend,
    Name::Close,
    Name::Abort,
    Name::Remove,
];

impl Name {
    /// The word.
    pub(crate) fn text(self) -> &'static [u8]
        ensures { result.now ≡ name_text self }
    {
        match self {
            Name::Clock => b"clock",
            Name::Inject => b"inject",
            Name::Open => b"open",
            Name::Listen => b"listen",
            Name::Start => b"start",
            Name::Give => b"give",
            Name::Take => b"take",
            Name::Send => b"send",
            Name::Resend => b"resend",
            Name::Close => b"close",
            Name::Abort => b"abort",
            Name::Remove => b"remove",
        }
    }

    /// The name that the word is, if it is one.
    pub(crate) fn read(word: &[u8]) -> Option<Name>
        ensures { MatchOption result ((n : OneName) → bytes_eq word.now (name_text n) ≡ false)
            (λ n. bytes_eq word.now (name_text n) ≡ true) }
    {
        first_named(&NAMES, word)
    }
}

/// The first of the names that the word is.
fn first_named(names: &[Name], word: &[u8]) -> Option<Name>
    ensures { MatchOption result (All (λ n. bytes_eq word.now (name_text n) ≡ false) names.now)
        (λ n. bytes_eq word.now (name_text n) ≡ true) }
{
    names.iter().copied().find(|name| word == name.text())
}
