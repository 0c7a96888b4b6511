//! The slices of a time.
ghost use Rattle.std.specs.Prelude.{◌≡◌, ◌++◌, ◌+◌, ◌<◌, ◌≤◌, ◌^◌, IfOk, OnOk};
ghost use Rattle.book_scope_plan.specs.Slices.{most_slices, slice_width, slices_from, slices_of};

use book_scope_plan::Slice;
use std::alloc::{AllocError, Global};

/// How many seconds a slice has, the last one apart.
pub(crate) fn slice_width(low: u64, high: u64) -> u64
    ensures value { result ≡ slice_width low high }
    ensures some { 0 < result }
    ensures range { result ≤ 384307168202282326 }
{
    high.saturating_sub(low) / 48 + 1
}

/// The slices from `low` until `more` seconds after it.
fn push_slices(slices: &mut Vec<Slice>, width: u64, low: u64, more: u64) -> Result<(), AllocError>
    requires some { 0 < width }
    requires range { low + more < 2 ^ 64 }
    ensures { OnOk result (slices.new.items ≡ slices.old.items ++ slices_from width most_slices low more) }
{
    let mut time = low;
    let mut left = more;
    for _done in 0..48_u8 {
        if left < width {
            slices.push(Slice {
                first: time,
                last: time + left,
            })?;
            return Ok(());
        }
        slices.push(Slice {
            first: time,
            last: time + (width - 1),
        })?;
        time += width;
        left -= width;
    }
    Ok(())
}

/// The slices of the time from `low` to `high`, at most 48; none where it ends before it begins.
pub(crate) fn slices_of(alloc: Global, low: u64, high: u64) -> Result<Vec<Slice>, AllocError>
    ensures { IfOk result (λ v. v.items ≡ slices_of low high) }
{
    let mut slices = Vec::new(alloc);
    if high < low {
        return Ok(slices);
    }
    push_slices(&mut slices, slice_width(low, high), low, high - low)?;
    Ok(slices)
}
