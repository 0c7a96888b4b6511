//! The changes under which the MAC of a segment is right.
ghost use Rattle.std.specs.Prelude.{◌≡◌, ◌≤◌, ◌++◌, IfOk, OnOk, filter, length, map};
ghost use Rattle.std.specs.List.{flat_map};
ghost use Rattle.book_segments.specs.Bytes.{same_bytes};
ghost use Rattle.book_segments.specs.Options.{One, find_ao};
ghost use Rattle.book_why.specs.declared.change.Change.TheVariants.{OtherConnection};
ghost use Rattle.book_why.specs.Changes.{all_changes, passes_changed, row_changes, rowless_changes, would_pass};
ghost use Rattle.tcp_segment.specs.Views.{view_ao};
ghost use Rattle.scope_why.specs.MacsViews.{both_view, kept, suspect_view};

use crate::changes::{changed_choices, rows_of};
use crate::recipe::{mac_made, recipe_by};
use crate::suspect::{BothTables, Suspect};
use book_base::Algorithm;
use book_why::{Change, IsnPair, SegmentNode};
use key_table::Row;
use std::alloc::{AllocError, Global};

/// How many changes name neither a row nor a connection.
const ROWLESS: usize = 26;

/// The changes that name neither a row nor a connection, in the order in which they are told.
fn rowless_changes() -> [Change; ROWLESS]
    ensures { result ≡ rowless_changes }
{
    [
        Change::OtherFlag,
        Change::OtherAlgorithm(Algorithm::HmacSha1),
        Change::OtherAlgorithm(Algorithm::AesCmac),
        Change::OtherAlgorithm(Algorithm::HmacSha256),
        Change::CutSha256,
        Change::KeyAsText,
        Change::KeyAsUpperText,
        Change::KeyWithNewline,
        Change::KeyAsTextWithNewline,
        Change::KeyPadded(16),
        Change::KeyPadded(20),
        Change::KeyPadded(32),
        Change::KeyPadded(64),
        Change::KeyPadded(80),
        Change::KeyTrimmed,
        Change::LengthInBytes,
        Change::OtherDirection,
        Change::SocketsExchanged,
        Change::IsnsExchanged,
        Change::NoDestinationIsn,
        Change::LapMore,
        Change::LapLess,
        Change::ChecksumKept,
        Change::MacKept,
        Change::LastBytes,
        Change::NoPseudoHeader,
    ]
}

// Puts the changes to each row of a node behind `out`.
fn push_rows(out: &mut Vec<Change>, node: SegmentNode, rows: &[Row]) -> Result<(), AllocError>
    requires { length rows.now ≤ 255 }
    ensures { OnOk result (out.new.items ≡ out.old.items ++ row_changes node 1 rows.now) }
{
    for i in 0..rows.len() {
        out.push(Change::AnotherRow(node, i as u8 + 1))?;
    }
    Ok(())
}

// Puts the changes to the initial sequence numbers of other connections behind `out`.
fn push_connections(out: &mut Vec<Change>, others: &[IsnPair]) -> Result<(), AllocError>
    ensures { OnOk result (out.new.items ≡ out.old.items ++ map OtherConnection others.now) }
{
    for isns in others {
        out.push(Change::OtherConnection(*isns))?;
    }
    Ok(())
}

// Puts the changes that name no row behind `out`.
fn push_rowless(out: &mut Vec<Change>, others: &[IsnPair]) -> Result<(), AllocError>
    ensures { OnOk result (out.new.items ≡ out.old.items ++ (rowless_changes ++ map OtherConnection others.now)) }
{
    out.extend_from_slice(&rowless_changes())?;
    push_connections(out, others)?;
    Ok(())
}

// The table of all changes.
fn all_changes(
    alloc: Global,
    both: &BothTables<'_>,
    others: &[IsnPair],
) -> Result<Vec<Change>, AllocError>
    ensures { IfOk result (λ all. all.items ≡ all_changes (both_view both.now) others.now) }
{
    let mut out = Vec::new(alloc);
    push_rows(
        &mut out,
        SegmentNode::Receiver,
        rows_of(both, SegmentNode::Receiver),
    )?;
    push_rows(
        &mut out,
        SegmentNode::Sender,
        rows_of(both, SegmentNode::Sender),
    )?;
    push_rowless(&mut out, others)?;
    Ok(out)
}

/// Whether the bytes are one MAC.
pub(crate) fn is_same_mac(one: &[u8], other: &[u8]) -> bool
    ensures { result ≡ same_bytes one.now other.now }
{
    one == other
}

// Whether the MAC of a segment is right under a change.
fn passes_changed(
    alloc: Global,
    both: &BothTables<'_>,
    suspect: &Suspect<'_>,
    change: Change,
) -> Result<bool, AllocError>
    requires { find_ao suspect.now.datagram.now.area ≡ One (view_ao suspect.now.ao) }
    ensures { IfOk result (λ passes. passes ≡ passes_changed (both_view both.now) (suspect_view suspect.now) change) }
{
    let choices = changed_choices(alloc, change, both, suspect)?;
    let recipe = recipe_by(alloc, choices, suspect.datagram, suspect.ao)?;
    let mac = mac_made(alloc, &recipe)?;
    Ok(is_same_mac(suspect.ao.mac, mac.as_slice()))
}

// Puts a change behind `out`, where the MAC of the segment is right under it.
fn push_change(
    alloc: Global,
    out: &mut Vec<Change>,
    both: &BothTables<'_>,
    suspect: &Suspect<'_>,
    change: Change,
) -> Result<(), AllocError>
    requires { find_ao suspect.now.datagram.now.area ≡ One (view_ao suspect.now.ao) }
    ensures { OnOk result (out.new.items ≡ out.old.items ++ kept
        (passes_changed (both_view both.now) (suspect_view suspect.now)) change) }
{
    if passes_changed(alloc, both, suspect, change)? {
        out.push(change)?;
    }
    Ok(())
}

// Puts those of these changes behind `out` under which the MAC of the segment is right.
fn push_kept(
    alloc: Global,
    out: &mut Vec<Change>,
    both: &BothTables<'_>,
    suspect: &Suspect<'_>,
    all: &[Change],
) -> Result<(), AllocError>
    requires { find_ao suspect.now.datagram.now.area ≡ One (view_ao suspect.now.ao) }
    ensures { OnOk result (out.new.items ≡ out.old.items ++ flat_map
        (kept (passes_changed (both_view both.now) (suspect_view suspect.now))) all.now) }
{
    for change in all {
        push_change(alloc, out, both, suspect, *change)?;
    }
    Ok(())
}

// The same.
fn push_filtered(
    alloc: Global,
    out: &mut Vec<Change>,
    both: &BothTables<'_>,
    suspect: &Suspect<'_>,
    all: &[Change],
) -> Result<(), AllocError>
    requires { find_ao suspect.now.datagram.now.area ≡ One (view_ao suspect.now.ao) }
    ensures { OnOk result (out.new.items ≡ out.old.items ++ filter
        (passes_changed (both_view both.now) (suspect_view suspect.now)) all.now) }
{
    push_kept(alloc, out, both, suspect, all)
}

/// The changes under which the MAC of a segment is right, in the order of the table, where other connections
/// on its sockets had these initial sequence numbers.
pub fn would_pass(
    alloc: Global,
    both: &BothTables<'_>,
    others: &[IsnPair],
    suspect: &Suspect<'_>,
) -> Result<Vec<Change>, AllocError>
    requires { find_ao suspect.now.datagram.now.area ≡ One (view_ao suspect.now.ao) }
    ensures { IfOk result (λ passing. passing.items ≡ would_pass (both_view both.now) others.now
        (suspect_view suspect.now)) }
{
    let all = all_changes(alloc, both, others)?;
    let mut passing = Vec::new(alloc);
    push_filtered(alloc, &mut passing, both, suspect, all.as_slice())?;
    Ok(passing)
}
