//! Where things stand in a picture.
ghost use Rattle.std.specs.Prelude.{◌≡◌};
ghost use Rattle.page_draw_svg.specs.Pictures.{end_column, is_at_once, label_column, label_height, lost_column};
ghost use Rattle.page_draw_svg.specs.Pictures.{lost_height, margin_column, margin_height, row_height, start_column};
ghost use Rattle.page_draw_svg.specs.Pictures.{start_row};

use book_base::End;
use both_ends::is_same_end;
use page_draw_svg::Start;

/// The height of a row.
pub(crate) fn row_height(row: u32) -> u64
    ensures { result ≡ row_height row }
{
    22 * u64::from(row) + 90
}

/// The height of the words on an arrow.
pub(crate) fn label_height(row: u32) -> u64
    ensures { result ≡ label_height row }
{
    22 * u64::from(row) + 85
}

/// The height of the words beside an end.
pub(crate) fn margin_height(row: u32) -> u64
    ensures { result ≡ margin_height row }
{
    22 * u64::from(row) + 94
}

/// The height at which the arrow of what is lost ends.
pub(crate) fn lost_height(row: u32) -> u64
    ensures { result ≡ lost_height row }
{
    22 * u64::from(row) + 93
}

/// The column of an end's stroke.
pub(crate) fn end_column(end: End) -> u64
    ensures { result ≡ end_column end }
{
    match end {
        End::A => 262,
        End::B => 538,
    }
}

/// The column of the words beside an end.
pub(crate) fn margin_column(end: End) -> u64
    ensures { result ≡ margin_column end }
{
    match end {
        End::A => 252,
        End::B => 548,
    }
}

/// The column of the words on an arrow, at the side of the end.
pub(crate) fn label_column(end: End) -> u64
    ensures { result ≡ label_column end }
{
    match end {
        End::A => 272,
        End::B => 528,
    }
}

/// The column in which the arrow of what is lost ends.
pub(crate) fn lost_column(end: End) -> u64
    ensures { result ≡ lost_column end }
{
    match end {
        End::A => 470,
        End::B => 330,
    }
}

/// The column in which the arrow of what comes to the end begins.
pub(crate) fn start_column(at: End, start: Option<Start>) -> u64
    ensures { result ≡ start_column at start }
{
    match start {
        None => 400,
        Some(start) => {
            if is_same_end(start.end, at) {
                400
            } else {
                end_column(start.end)
            }
        }
    }
}

/// The row in which the arrow of what comes in this one begins.
pub(crate) fn start_row(row: u32, start: Option<Start>) -> u32
    ensures { result ≡ start_row row start }
{
    match start {
        None => row,
        Some(start) => start.row,
    }
}

/// Whether what was made comes in the row behind it.
pub(crate) fn is_at_once(row: u32, start: Option<Start>) -> bool
    ensures { result ≡ is_at_once row start }
{
    start.is_some_and(|start| u64::from(start.row) + 1 == u64::from(row))
}
