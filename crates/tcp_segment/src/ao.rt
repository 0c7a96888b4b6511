//! The TCP-AO option among the others (RFC 5925, section 2.2).
ghost use Rattle.std.specs.Prelude.{◌≡◌, ℕ, List, Option, Some, None, ◌+◌, ◌<◌, ◌≤◌, length};
ghost use Rattle.book_segments.specs.Options.{AreListed, options_at, find_ao};
ghost use Rattle.tcp_segment.specs.Views.{HitIs, IsAo, view_found};

use crate::iter::{Cut, Opt, cut_front};
use crate::kinds::{AO_KIND, MD5_KIND};
use crate::options::Options;

/// A TCP-AO option: the key that made its MAC, the key that the sender wants next, the MAC, and the
/// place of the kind byte in the area (RFC 5925, section 2.2).
#[derive(Clone, Copy, Debug)]
pub struct AoOption<'a> {
    pub key_id: u8,
    pub rnext: u8,
    pub mac: &'a [u8],
    pub place: u8,
}

/// What the options of a segment hold of TCP-AO.
#[derive(Clone, Copy, Debug)]
pub enum AoFound<'a> {
    /// No option has kind 29.
    Absent,
    /// One option has kind 29, and none is of TCP MD5 (kind 19).
    One(AoOption<'a>),
    /// Two options or more have kind 29.
    Two,
    /// One option has kind 29, and another is of TCP MD5.
    WithMd5,
}

/// An option of a kind that was looked for, and where the options behind it begin.
#[derive(Clone, Copy)]
struct Hit<'a> {
    option: Opt<'a>,
    place: u8,
    behind: &'a [u8],
    behind_place: u8,
}

/// Looks for the first option of a kind in an area that begins at a place.
fn first_of(kind: u8, area: &[u8], from: u8) -> Option<Hit<'_>>
    requires kind { 1 < kind }
    requires listed { AreListed (options_at from area.now) }
    requires room { from + length area.now ≤ 40 }
    ensures { HitIs kind from area.now result }
{
    let mut rest = area;
    let mut place = from;
    loop {
        match cut_front(rest) {
            Cut::Leading(option, size, behind) => {
                if option.kind == kind {
                    return Some(Hit {
                        option,
                        place,
                        behind,
                        behind_place: place + size,
                    });
                }
                place += size;
                rest = behind;
            }
            Cut::Ending => return None,
            Cut::NoMore => return None,
            Cut::TooShort => unreachable!(),
            Cut::TooLong => unreachable!(),
        }
    }
}

/// The fields of a TCP-AO option.
fn ao_of_hit(hit: Hit<'_>) -> AoOption<'_>
    requires { 2 ≤ length hit.option.body.now }
    ensures { IsAo hit.entry result }
{
    AoOption {
        key_id: hit.option.body[0],
        rnext: hit.option.body[1],
        mac: &hit.option.body[2..],
        place: hit.place,
    }
}

impl<'a> Options<'a> {
    /// The TCP-AO option: `Absent` exactly where no option has kind 29, `Two` where two or more
    /// have, `WithMd5` where one has and some option is of TCP MD5, kind 19 (RFC 5925, section 2.2).
    pub fn find_ao(&self) -> AoFound<'a>
        ensures { view_found result ≡ find_ao self.now }
    {
        let area = self.area;
        let Some(hit) = first_of(AO_KIND, area, 0) else {
            return AoFound::Absent;
        };
        if first_of(AO_KIND, hit.behind, hit.behind_place).is_some() {
            return AoFound::Two;
        }
        if first_of(MD5_KIND, area, 0).is_some() {
            return AoFound::WithMd5;
        }
        AoFound::One(ao_of_hit(hit))
    }
}
