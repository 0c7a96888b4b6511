//! The first word of an event's line.
ghost use Rattle.std.specs.Prelude.{◌≡◌, All, MatchOption, false, true};
ghost use Rattle.std.specs.Str.{bytes_eq};
ghost use Rattle.link_script.specs.declared.name.Name.{Name as OneName};
ghost use Rattle.link_script.specs.Names.{name_text};

/// The first word of an event's line.
#[derive(Clone, Copy)]
pub(crate) enum Name {
    Clock,
    Open,
    Listen,
    Start,
    Give,
    Fill,
    Send,
    Resend,
    Deliver,
    Inject,
    Alter,
    Take,
    Close,
    Abort,
    Add,
    Withdraw,
    Dump,
}

const NAMES: [Name; 17] = [
    Name::Clock,
    Name::Open,
    Name::Listen,
    Name::Start,
    Name::Give,
    Name::Fill,
    Name::Send,
    Name::Resend,
    Name::Deliver,
    Name::Inject,
    Name::Alter,
    Name::Take,
    Name::Close,
    Name::Abort,
    Name::Add,
    Name::Withdraw,
    Name::Dump,
];

impl Name {
    /// The word.
    pub(crate) fn text(self) -> &'static [u8]
        ensures { result.now ≡ name_text self }
    {
        match self {
            Name::Clock => b"clock",
            Name::Open => b"open",
            Name::Listen => b"listen",
            Name::Start => b"start",
            Name::Give => b"give",
            Name::Fill => b"fill",
            Name::Send => b"send",
            Name::Resend => b"resend",
            Name::Deliver => b"deliver",
            Name::Inject => b"inject",
            Name::Alter => b"alter",
            Name::Take => b"take",
            Name::Close => b"close",
            Name::Abort => b"abort",
            Name::Add => b"add",
            Name::Withdraw => b"withdraw",
            Name::Dump => b"dump",
        }
    }

    /// The name that the word is, if it is one.
    pub(crate) fn read(word: &[u8]) -> Option<Name>
        ensures { MatchOption result ((n : OneName) → bytes_eq word.now (name_text n) ≡ false)
            (λ n. bytes_eq word.now (name_text n) ≡ true) }
    {
        first_named(&NAMES, word)
    }
}

/// The first of the names that the word is.
fn first_named(names: &[Name], word: &[u8]) -> Option<Name>
    ensures { MatchOption result (All (λ n. bytes_eq word.now (name_text n) ≡ false) names.now)
        (λ n. bytes_eq word.now (name_text n) ≡ true) }
{
    names.iter().copied().find(|name| word == name.text())
}
