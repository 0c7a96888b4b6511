//! One option after another.
ghost use Rattle.std.specs.Prelude.{◌≡◌, ℕ, List};
ghost use Rattle.std.specs.Iterator.{YieldsFirstBy, item_count};
ghost use Rattle.book_segments.specs.Options.{option_front, options_of, listed, AreListed, plains};
ghost use Rattle.tcp_segment.specs.Views.{view_opt, view_cut};

use crate::kinds::{AO_HEAD, AO_KIND, LEAST_OPTION};
use std::marker::Model;

/// An option: its kind, and its body without the kind and length bytes (RFC 9293, section 3.2).
#[derive(Clone, Copy, Debug)]
pub struct Opt<'a> {
    pub kind: u8,
    pub body: &'a [u8],
}

/// What stands at the front of an area.
#[derive(Clone, Copy)]
pub(crate) enum Cut<'a> {
    /// Nothing.
    NoMore,
    /// Kind 0, which ends the list.
    Ending,
    /// An option whose length byte is below the least of its kind.
    TooShort,
    /// An option without a length byte, or one that reaches past the area.
    TooLong,
    /// An option, how many bytes it takes, and the bytes behind it.
    Leading(Opt<'a>, u8, &'a [u8]),
}

/// Cuts the option off that stands at the front of an area.
pub(crate) fn cut_front(area: &[u8]) -> Cut<'_>
    ensures { view_cut result ≡ option_front area.now }
{
    match area {
        [] => Cut::NoMore,
        [0, ..] => Cut::Ending,
        [1, rest @ ..] => Cut::Leading(Opt { kind: 1, body: &[] }, 1, rest),
        [_] => Cut::TooLong,
        [kind, size, rest @ ..] => {
            let least = if *kind == AO_KIND {
                AO_HEAD
            } else {
                LEAST_OPTION
            };
            if *size < least {
                return Cut::TooShort;
            }
            let length = *size as usize;
            if rest.len() + 2 < length {
                return Cut::TooLong;
            }
            let (body, behind) = rest.split_at(length - 2);
            Cut::Leading(Opt { kind: *kind, body }, *size, behind)
        }
    }
}

/// The options of an area in order, up to and with kind 0.
#[derive(Drop)]
pub struct OptionIter<'a> {
    rest: &'a [u8],
}

impl<'a> Model for OptionIter<'a> {
    ghost use Rattle.std.specs.Prelude.{List};
    ghost use Rattle.book_segments.specs.Options.{AreListed, Plain, plains, listed, options_of};

    ghost Value = { List Plain };

    ghost view = { λ i. plains (listed (options_of i.rest.now)) };

    ghost invariant = { λ i. AreListed (options_of i.rest.now) };
}

/// The options of an area without a fault.
pub(crate) fn iter_over(area: &[u8]) -> OptionIter<'_>
    requires { AreListed (options_of area.now) }
    ensures { result ≡ plains (listed (options_of area.now)) }
{
    OptionIter { rest: area }
}

impl<'a> Iterator for OptionIter<'a> {
    type Item = Opt<'a>;

    ghost next_gives = { YieldsFirstBy view_opt (λ i. i) };

    ghost remaining = { item_count (λ i. i) };

    fn next(&mut self) -> Option<Opt<'a>> {
        match cut_front(self.rest) {
            Cut::Leading(option, _, rest) => {
                self.rest = rest;
                Some(option)
            }
            Cut::Ending => {
                self.rest = &[];
                Some(Opt { kind: 0, body: &[] })
            }
            Cut::NoMore => None,
            Cut::TooShort => unreachable!(),
            Cut::TooLong => unreachable!(),
        }
    }
}
