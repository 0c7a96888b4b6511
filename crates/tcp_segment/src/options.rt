//! An option area without a fault.
ghost use Rattle.std.specs.Prelude.{◌≡◌, ℕ, List, ◌≤◌, length, Option, Some, None, IfOk, IfErr, IsOk, MatchResult};
ghost use Rattle.book_segments.specs.Options.{AreListed, Faulty, options_of, listed, mss_among, plains};
ghost use Rattle.book_segments.specs.Options as book;
ghost use Rattle.book_segments.specs.Areas.{Area, FaultAt};
ghost use Rattle.tcp_segment.specs.Views.{FaultIs, mss_or, view_opt};

use crate::iter::{Cut, Opt, OptionIter, cut_front, iter_over};
use crate::kinds::MSS_KIND;
use book_segments::OptionFault;
use byteorder::{BigEndian, ByteOrder};
use std::marker::Model;

/// The options of a header, borrowed from the caller's bytes; seen as the bytes of the area.
#[derive(Drop)]
pub struct Options<'a> {
    pub(crate) area: &'a [u8],
}

impl<'a> Model for Options<'a> {
    ghost use Rattle.std.specs.Prelude.{ℕ, List, ◌≤◌, length};
    ghost use Rattle.book_segments.specs.Options.{AreListed, options_of};

    ghost Value = { List ℕ };

    ghost view = { λ o. o.area.now };

    ghost invariant = { λ o. AreListed (options_of o.area.now) × (length o.area.now ≤ 40) };
}

/// Looks for the first fault of an area.
fn fault_in(area: &[u8]) -> Option<OptionFault>
    requires { length area.now ≤ 40 }
    ensures { FaultIs result (options_of area.now) }
{
    let mut rest = area;
    let mut place = 0;
    loop {
        match cut_front(rest) {
            Cut::NoMore => return None,
            Cut::Ending => return None,
            Cut::TooShort => return Some(OptionFault::ShortLength(place)),
            Cut::TooLong => return Some(OptionFault::PastEnd(place)),
            Cut::Leading(_, size, behind) => {
                place += size;
                rest = behind;
            }
        }
    }
}

/// Reads the option area of a TCP header, of at most 40 bytes (RFC 9293, section 3.2).
///
/// Kind 0 ends the list, and the bytes behind it are passed over. The first faulty option decides:
/// `PastEnd` where it has no length byte; else `ShortLength` where its length is below 2, or below 4
/// for TCP-AO (kind 29); else `PastEnd` where it reaches past the area.
pub fn read_options(area: &[u8]) -> Result<Options<'_>, OptionFault>
    requires { length area.now ≤ 40 }
    ensures area { IfOk result (λ options. options ≡ area.now) }
    ensures exact { MatchResult result (λ _. AreListed (options_of area.now))
        (λ fault. options_of area.now ≡ Faulty fault) }
    ensures options { IfOk result (λ _. (tail : List ℕ) × Area (listed (options_of area.now)) tail area.now) }
    ensures only { (list : List book.Opt) (tail : List ℕ) → Area list tail area.now
        → IsOk result × (listed (options_of area.now) ≡ list) }
    ensures fault { IfErr result (λ fault. FaultAt area.now fault) }
{
    match fault_in(area) {
        None => Ok(Options { area }),
        Some(fault) => Err(fault),
    }
}

/// The options of an area that is known to have no fault, of at most 40 bytes.
pub fn options_over(area: &[u8]) -> Options<'_>
    requires most { length area.now ≤ 40 }
    requires listed { AreListed (options_of area.now) }
    ensures { result ≡ area.now }
{
    Options { area }
}

fn mss_of_option(option: Opt<'_>) -> Option<u16>
    ensures { result ≡ mss_or (view_opt option.entry) None }
{
    if option.kind != MSS_KIND {
        return None;
    }
    if option.body.len() == 2 {
        Some(BigEndian::read_u16(option.body))
    } else {
        None
    }
}

impl<'a> Options<'a> {
    /// The whole area that was read, with the bytes behind kind 0.
    pub fn area(&self) -> &'a [u8]
        ensures { result.now ≡ self.now }
    {
        self.area
    }

    /// Each option in order, up to and with kind 0.
    pub fn iter(&self) -> OptionIter<'a>
        ensures { result ≡ plains (listed (options_of self.now)) }
    {
        iter_over(self.area)
    }

    /// The maximum segment size: the first option of kind 2 with a body of two bytes (RFC 9293,
    /// section 3.7.1). None exactly where there is none.
    pub fn mss(&self) -> Option<u16>
        ensures { result ≡ mss_among (listed (options_of self.now)) }
    {
        for option in self.iter() {
            if let Some(mss) = mss_of_option(option) {
                return Some(mss);
            }
        }
        None
    }
}
