//! The lines of a ladder.
ghost use Rattle.std.specs.Prelude.{◌≡◌, ◌++◌, ◌∷◌, ◌-◌, [], OnOk, codes, length, replicate};
ghost use Rattle.book_base.specs.declared.end.End.TheVariants.{A};
ghost use Rattle.book_draw.specs.Ladders.{arriving_pen, arrowhead, blank_way, ladder_line, leftward, line_at};
ghost use Rattle.book_draw.specs.Ladders.{made_pen, rightward, way_from, way_to};
ghost use Rattle.draw_ladder.specs.Pens.{pen_of};

use book_base::End;
use book_draw::Brought;
use std::alloc::AllocError;

/// What an arrow is drawn with: a byte for the first three columns of its way, for its stroke and for its
/// last column.
#[derive(Clone, Copy)]
pub(crate) struct Pen {
    lead: u8,
    stroke: u8,
    tip: u8,
}

/// Puts the byte behind `out` so many times. An error only for want of memory.
pub fn push_times(out: &mut Vec<u8>, byte: u8, count: usize) -> Result<(), AllocError>
    ensures { OnOk result (out.new.items ≡ out.old.items ++ replicate count byte) }
{
    for _done in 0..count {
        out.push(byte)?;
    }
    Ok(())
}

pub(crate) fn push_blank_way(out: &mut Vec<u8>) -> Result<(), AllocError>
    ensures { OnOk result (out.new.items ≡ out.old.items ++ blank_way) }
{
    push_times(out, b' ', 43)
}

/// The left margin.
fn push_left(out: &mut Vec<u8>, left: &[u8]) -> Result<(), AllocError>
    ensures { OnOk result
        (out.new.items ≡ out.old.items ++ (replicate (27 - length left.now) 32 ++ (left.now ++ codes " |"))) }
{
    push_times(out, b' ', 27_usize.saturating_sub(left.len()))?;
    out.extend_from_slice(left)?;
    out.extend_from_slice(b" |")
}

/// A line: the left margin, the way between the ends, and the right margin.
fn push_line(out: &mut Vec<u8>, left: &[u8], way: &[u8], right: &[u8]) -> Result<(), AllocError>
    ensures { OnOk result (out.new.items ≡ out.old.items ++ ladder_line left.now way.now right.now) }
{
    push_left(out, left)?;
    out.extend_from_slice(way)?;
    out.push(b'|')?;
    out.extend_from_slice(right)?;
    out.push(b'\n')?;
    Ok(())
}

/// A line by what stands at this end, and at the other.
pub(crate) fn push_line_at(
    out: &mut Vec<u8>,
    end: End,
    own: &[u8],
    way: &[u8],
    other: &[u8],
) -> Result<(), AllocError>
    ensures { OnOk result (out.new.items ≡ out.old.items ++ line_at end own.now way.now other.now) }
{
    match end {
        End::A => push_line(out, own, way, other),
        End::B => push_line(out, other, way, own),
    }
}

fn push_rightward(out: &mut Vec<u8>, pen: Pen, label: &[u8]) -> Result<(), AllocError>
    ensures { OnOk result (out.new.items ≡ out.old.items ++ rightward (pen_of pen) label.now) }
{
    push_times(out, pen.lead, 3)?;
    out.extend_from_slice(label)?;
    out.push(b' ')?;
    push_times(out, pen.stroke, 38_usize.saturating_sub(label.len()))?;
    out.push(pen.tip)?;
    Ok(())
}

fn push_leftward(out: &mut Vec<u8>, pen: Pen, label: &[u8]) -> Result<(), AllocError>
    ensures { OnOk result (out.new.items ≡ out.old.items ++ leftward (pen_of pen) label.now) }
{
    out.push(pen.tip)?;
    push_times(out, pen.stroke, 38_usize.saturating_sub(label.len()))?;
    out.extend_from_slice(label)?;
    out.push(b' ')?;
    push_times(out, pen.lead, 3)
}

/// The way of an arrow that leaves this end.
pub(crate) fn push_way_from(
    out: &mut Vec<u8>,
    end: End,
    pen: Pen,
    label: &[u8],
) -> Result<(), AllocError>
    ensures { OnOk result (out.new.items ≡ out.old.items ++ way_from end (pen_of pen) label.now) }
{
    match end {
        End::A => push_rightward(out, pen, label),
        End::B => push_leftward(out, pen, label),
    }
}

/// The way of an arrow that reaches this end.
pub(crate) fn push_way_to(
    out: &mut Vec<u8>,
    end: End,
    pen: Pen,
    label: &[u8],
) -> Result<(), AllocError>
    ensures { OnOk result (out.new.items ≡ out.old.items ++ way_to end (pen_of pen) label.now) }
{
    match end {
        End::A => push_leftward(out, pen, label),
        End::B => push_rightward(out, pen, label),
    }
}

/// The last column of an arrow that points at this end.
fn arrowhead(end: End) -> u8
    ensures { result ≡ arrowhead end }
{
    match end {
        End::A => b'<',
        End::B => b'>',
    }
}

/// The pen of an arrow that reaches an end.
pub(crate) fn arriving_pen(end: End, what: Brought) -> Pen
    ensures { pen_of result ≡ arriving_pen end what }
{
    let tip = arrowhead(end);
    match what {
        Brought::Segment(_) => Pen {
            lead: b'.',
            stroke: b'-',
            tip,
        },
        Brought::Altered(_) => Pen {
            lead: b'.',
            stroke: b'~',
            tip,
        },
        Brought::Injected => Pen {
            lead: b' ',
            stroke: b'=',
            tip,
        },
    }
}

/// The pen of a segment that the end made: it comes at once, later, or never.
pub(crate) fn made_pen(end: End, comes: bool, at_once: bool) -> Pen
    ensures { pen_of result ≡ made_pen end comes at_once }
{
    if at_once {
        let other = match end {
            End::A => End::B,
            End::B => End::A,
        };
        return Pen {
            lead: b'-',
            stroke: b'-',
            tip: arrowhead(other),
        };
    }
    if comes {
        Pen {
            lead: b'-',
            stroke: b'.',
            tip: b'.',
        }
    } else {
        Pen {
            lead: b'-',
            stroke: b'-',
            tip: b'X',
        }
    }
}

/// Puts the line of an arrow that reaches this end behind `out`: it is drawn of this byte, with the label on
/// it, its own words beside the end, and the other words beside the other end. Where memory runs out a part
/// of it may stand there.
pub fn push_arrow(
    out: &mut Vec<u8>,
    at: End,
    stroke: u8,
    label: &[u8],
    own: &[u8],
    other: &[u8],
) -> Result<(), AllocError>
    ensures { OnOk result (out.new.items ≡ out.old.items
        ++ line_at at own.now (way_to at (record { lead = stroke; stroke = stroke; tip = arrowhead at }) label.now)
        other.now) }
{
    let mut way = Vec::new(*out.allocator());
    let pen = Pen {
        lead: stroke,
        stroke,
        tip: arrowhead(at),
    };
    push_way_to(&mut way, at, pen, label)?;
    push_line_at(out, at, own, way.as_slice(), other)
}

/// Puts the line above a ladder behind `out`: the names of its two ends. Where memory runs out a part of it
/// may stand there.
pub fn push_names(out: &mut Vec<u8>, left: &[u8], right: &[u8]) -> Result<(), AllocError>
    ensures { OnOk result (out.new.items ≡ out.old.items ++ line_at A left.now blank_way right.now) }
{
    let mut way = Vec::new(*out.allocator());
    push_blank_way(&mut way)?;
    push_line_at(out, End::A, left, way.as_slice(), right)
}
