//! The slices in which something is wrong.
ghost use Rattle.std.specs.Prelude.{◌≡◌, ◌++◌, OnOk, option_map};
ghost use Rattle.book_scope_plan.specs.Bars.{is_marked, is_seen, may_send_in, numbered_sends, pair_at, slice_mark};
ghost use Rattle.book_scope_plan.specs.Bars.{wrong_byte, wrong_bytes};
ghost use Rattle.book_scope_plan.specs.CalendarTexts.{side_of};

use crate::fillings::{is_filled, row_filling};
use book_base::{End, Pair};
use book_plans::Finding;
use book_scope_plan::{Duty, Slice};
use both_ends::BothEnds;
use key_table::{Row, Table, mirrored};
use plan_texts::row_numbered;
use std::alloc::AllocError;

/// The tables of the two ends of a connection, and the pair as end A sees it.
#[derive(Clone, Copy)]
pub struct Connected<'a> {
    pub tables: BothEnds<&'a Table>,
    pub pair: Pair,
}

/// Whether the row that was found may send at some second of the slice.
fn may_send_in(pair: &Pair, slice: &Slice, row: Option<&Row>) -> bool
    ensures { result ≡ may_send_in pair.now slice.now (option_map (λ r. r.now) row.entry) }
{
    row.is_some_and(|row| is_filled(row_filling(pair, Duty::Sends, row, slice)))
}

impl<'a> Connected<'a> {
    /// The table of an end.
    #[tactic(auto, using(crate::proofs::SideLaws::table_at))]
    pub fn table(&self, end: End) -> &'a Table
        ensures { result.now ≡ side_of end self.now.tables.a.now self.now.tables.b.now }
    {
        *self.tables.at(end)
    }

    /// The pair as an end sees it.
    pub fn pair_at(&self, end: End) -> Pair
        ensures { result ≡ pair_at end self.now.pair }
    {
        match end {
            End::A => self.pair,
            End::B => mirrored(&self.pair),
        }
    }

    /// Whether the row of this end and number may send at some second of the slice.
    fn is_sending(&self, slice: &Slice, end: End, number: u8) -> bool
        ensures { result ≡ numbered_sends (side_of end self.now.tables.a.now self.now.tables.b.now).rows
            (pair_at end self.now.pair) slice.now number }
    {
        let pair = self.pair_at(end);
        may_send_in(&pair, slice, row_numbered(self.table(end), number))
    }

    /// Whether the finding is seen in the slice.
    fn is_seen(&self, slice: &Slice, finding: Finding) -> bool
        ensures { result ≡ is_seen self.now.tables.a.now self.now.tables.b.now self.now.pair slice.now finding }
    {
        match finding {
            Finding::NoPeerRow(end, number) => self.is_sending(slice, end, number),
            Finding::ShortAccept(end, number) => self.is_sending(slice, end, number),
            Finding::Gap(_, first, last) => first <= slice.last && slice.first <= last,
        }
    }

    /// Whether one of the findings is seen in the slice: a row that isn't met at the other end may send in it, or
    /// a gap has a second of it.
    fn is_marked(&self, slice: &Slice, findings: &[Finding]) -> bool
        ensures { result ≡ is_marked self.now.tables.a.now self.now.tables.b.now self.now.pair findings.now slice.now }
    {
        findings.iter().any(|finding| self.is_seen(slice, *finding))
    }
}

fn wrong_byte(is_wrong: bool) -> u8
    ensures { result ≡ wrong_byte is_wrong }
{
    if is_wrong { b'!' } else { b' ' }
}

#[tactic(auto, unfolding(book_scope_plan::specs::Bars::slice_mark))]
fn push_slice_mark(
    out: &mut Vec<u8>,
    ends: &Connected,
    findings: &[Finding],
    slice: &Slice,
) -> Result<(), AllocError>
    ensures { OnOk result (out.new.items ≡ out.old.items ++ slice_mark ends.now.tables.a.now ends.now.tables.b.now
        ends.now.pair findings.now slice.now) }
{
    out.push(wrong_byte(ends.is_marked(slice, findings)))?;
    Ok(())
}

/// The bytes that mark the slices in which one of the findings is seen.
pub(crate) fn push_wrong_bytes(
    out: &mut Vec<u8>,
    ends: &Connected,
    findings: &[Finding],
    slices: &[Slice],
) -> Result<(), AllocError>
    ensures { OnOk result (out.new.items ≡ out.old.items ++ wrong_bytes ends.now.tables.a.now ends.now.tables.b.now
        ends.now.pair findings.now slices.now) }
{
    for slice in slices {
        push_slice_mark(out, ends, findings, slice)?;
    }
    Ok(())
}
