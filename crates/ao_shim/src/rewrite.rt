//! The options of a segment, written anew.
ghost use Rattle.std.specs.Prelude.{◌≡◌, ◌≤◌, ◌<◌, length, IfSome, IfNone};
ghost use Rattle.book_segments.specs.Options.{AreListed, options_of};
ghost use Rattle.book_shim.specs.Relaying.{going as gone, coming as come, rewritten, if_room, packed_in};
ghost use Rattle.book_shim.specs.Relaying.{fitted_from, fitted, coming_area};

use crate::area::Area;
use book_shim::Trim;
use tcp_segment::Options;

/// The options as they go out, trimmed so, if they have room in an area.
fn going(options: &Options<'_>, trim: Trim) -> Option<Area>
    requires { trim.blocks ≤ 4 }
    ensures some { IfSome result (λ a. a ≡ rewritten (gone trim) options.now) }
    ensures none { IfNone result (40 < length (rewritten (gone trim) options.now)) }
{
    let mut area = Area::empty();
    for option in options.iter() {
        if !area.push_going(trim, option) {
            return None;
        }
    }
    area.fill();
    Some(area)
}

/// The options as they go out, trimmed so, if they have this room.
fn going_within(options: &Options<'_>, room: usize, trim: Trim) -> Option<Area>
    requires blocks { trim.blocks ≤ 4 }
    requires room { room ≤ 40 }
    ensures { result ≡ if_room room (rewritten (gone trim) options.now) }
{
    match going(options, trim) {
        None => None,
        Some(area) => { if area.len() <= room { Some(area) } else { None } }
    }
}

/// The options as they go out with so many blocks, as they stand or else without what only fills up, if
/// they have this room.
fn packed_within(options: &Options<'_>, room: usize, blocks: u8, bare: bool) -> Option<Area>
    requires blocks { blocks ≤ 4 }
    requires room { room ≤ 40 }
    ensures { result ≡ packed_in room blocks bare options.now }
{
    let loose = Trim {
        blocks,
        packed: false,
        bare,
    };
    if let Some(area) = going_within(options, room, loose) {
        return Some(area);
    }
    let tight = Trim {
        blocks,
        packed: true,
        bare,
    };
    going_within(options, room, tight)
}

/// The options as they go out, with so many blocks or as many fewer as leave this room.
fn fitted_from(options: &Options<'_>, room: usize, blocks: u8, bare: bool) -> Option<Area>
    requires blocks { blocks ≤ 4 }
    requires room { room ≤ 40 }
    ensures { result ≡ fitted_from room blocks bare options.now }
{
    if let Some(area) = packed_within(options, room, blocks, bare) {
        return Some(area);
    }
    if blocks == 0 {
        return None;
    }
    fitted_from(options, room, blocks - 1, bare)
}

/// The options as they go out, with as many of them as leave this room.
pub fn fitted(options: &Options<'_>, room: usize) -> Option<Area>
    requires { room ≤ 40 }
    ensures { result ≡ fitted room options.now }
{
    if let Some(area) = fitted_from(options, room, 4, false) {
        return Some(area);
    }
    fitted_from(options, room, 4, true)
}

/// The options as they come in, a maximum segment size lowered where there is a most.
pub fn coming(options: &Options<'_>, most: Option<u16>) -> Area
    requires listed { AreListed (options_of options.now) }
    requires short { length options.now ≤ 40 }
    ensures { result ≡ coming_area most options.now }
{
    let mut area = Area::empty();
    for option in options.iter() {
        area.push_coming(most, option);
    }
    area.fill();
    area
}
