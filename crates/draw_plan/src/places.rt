//! The words of a line.
ghost use Rattle.std.specs.Prelude.{◌≡◌, ◌≤◌, ◌++◌, OnOk};
ghost use Rattle.page_draw_plan_svg.specs.PlanPictures.{bars_height, line_words, words_height};

use page_svg::{Point, push_words};
use std::alloc::AllocError;

fn words_height(line: u32) -> u64
    ensures { result ≡ words_height line }
{
    36 * u64::from(line) + 34
}

/// The height of the upper edge of the bars of a line.
pub(crate) fn bars_height(line: u32) -> u64
    ensures value { result ≡ bars_height line }
    ensures range { result ≤ 154618822660 }
{
    36 * u64::from(line) + 40
}

/// The words of a line.
pub(crate) fn push_line_words(out: &mut Vec<u8>, line: u32, words: &[u8]) -> Result<(), AllocError>
    ensures { OnOk result (out.new.items ≡ out.old.items ++ line_words line words.now) }
{
    let at = Point {
        x: 20,
        y: words_height(line),
    };
    push_words(out, at, false, words)
}
