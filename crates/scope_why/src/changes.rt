//! The choices under a single change.
ghost use Rattle.std.specs.Prelude.{◌≡◌, ◌≤◌, ◌-◌, IfOk, length, slice_index_or, true};
ghost use Rattle.book_base.specs.declared.algorithm.Algorithm.TheVariants.{HmacSha256};
ghost use Rattle.book_segments.specs.Options.{One, find_ao};
ghost use Rattle.book_why.specs.Changes.{changed_choices, rows_there, table_at};
ghost use Rattle.book_why.specs.Recipes.{mac_made, right_choices, recipe_of};
ghost use Rattle.tcp_segment.specs.Views.{view_ao};
ghost use Rattle.scope_why.specs.Parts.{choices_under, derived_under, input_under};
ghost use Rattle.scope_why.specs.MacsViews.{both_view, choices_view, suspect_view};

use crate::choices::{MacChoices, RING, choices_with, key_length, right_choices};
use crate::masters::keyed_under;
use crate::recipe::{mac_made, recipe_by};
use crate::suspect::{BothTables, Suspect};
use book_base::Algorithm;
use book_why::{Change, IsnPair, MacPart, SegmentNode};
use key_table::{Row, Table};
use std::alloc::{AllocError, Global};

// The rows of a table.
fn rows_in(table: &Table) -> &[Row]
    ensures value { result.now ≡ table.now.rows }
    ensures most { length result.now ≤ 255 }
{
    let _count = table.rows();
    table.entries()
}

// The rows of a node; none where it isn't there.
pub(crate) fn rows_of<'a>(both: &BothTables<'a>, node: SegmentNode) -> &'a [Row]
    ensures value { result.now ≡ rows_there (table_at (both_view both.now) node) }
    ensures most { length result.now ≤ 255 }
{
    match node {
        SegmentNode::Receiver => rows_in(both.receiver),
        SegmentNode::Sender => match both.sender {
            Some(table) => rows_in(table),
            None => &[],
        },
    }
}

// The row of this number, from 1; another one where there is none.
fn row_at<'a>(rows: &'a [Row], number: u8, other: &'a Row) -> &'a Row
    ensures { result.now ≡ slice_index_or rows.now (number - 1) other.now }
{
    match rows.get(usize::from(number).saturating_sub(1)) {
        Some(row) => row,
        None => other,
    }
}

// The context of the other direction.
fn turned(mut choices: MacChoices) -> MacChoices
    ensures { choices_view result
        ≡ record (choices_view choices) {
          source = choices.destination;
          destination = choices.source;
          source_isn = choices.destination_isn;
          destination_isn = choices.source_isn;
        } }
{
    let (source, source_isn) = (choices.source, choices.source_isn);
    choices.source = choices.destination;
    choices.source_isn = choices.destination_isn;
    choices.destination = source;
    choices.destination_isn = source_isn;
    choices
}

fn with_sockets_exchanged(mut choices: MacChoices) -> MacChoices
    ensures { choices_view result
        ≡ record (choices_view choices) { source = choices.destination; destination = choices.source } }
{
    let source = choices.source;
    choices.source = choices.destination;
    choices.destination = source;
    choices
}

fn with_isns_exchanged(mut choices: MacChoices) -> MacChoices
    ensures { choices_view result
        ≡ record (choices_view choices) { source_isn = choices.destination_isn; destination_isn = choices.source_isn } }
{
    let source_isn = choices.source_isn;
    choices.source_isn = choices.destination_isn;
    choices.destination_isn = source_isn;
    choices
}

fn with_isns(mut choices: MacChoices, isns: IsnPair) -> MacChoices
    ensures { choices_view result
        ≡ record (choices_view choices) { source_isn = isns.source_isn; destination_isn = isns.destination_isn } }
{
    choices.source_isn = isns.source_isn;
    choices.destination_isn = isns.destination_isn;
    choices
}

// The MAC that the check computes.
pub(crate) fn right_mac(alloc: Global, suspect: &Suspect<'_>) -> Result<Vec<u8>, AllocError>
    requires { find_ao suspect.now.datagram.now.area ≡ One (view_ao suspect.now.ao) }
    ensures { IfOk result (λ mac. mac.items ≡ mac_made (recipe_of (suspect_view suspect.now))) }
{
    let choices = right_choices(alloc, suspect.row, suspect)?;
    let recipe = recipe_by(alloc, choices, suspect.datagram, suspect.ao)?;
    mac_made(alloc, &recipe)
}

fn checksum_of(suspect: &Suspect<'_>) -> u16
    ensures { result ≡ suspect.now.datagram.now.checksum }
{
    let header = suspect.datagram.header();
    header[16] as u16 * 256 + header[17] as u16
}

// The choices under HMAC-SHA-256 cut to 96 bits.
fn cut_sha256(alloc: Global, suspect: &Suspect<'_>) -> Result<MacChoices, AllocError>
    ensures { IfOk result
        (λ m. choices_view m
        ≡ record (right_choices (record (suspect.now.row.now) { algorithm = HmacSha256 })
        (suspect_view suspect.now)) { cut = true }) }
{
    let mut choices = choices_with(alloc, Algorithm::HmacSha256, suspect.row, suspect)?;
    choices.cut = true;
    Ok(choices)
}

// The choices under another row or another algorithm.
fn choices_under(
    alloc: Global,
    change: Change,
    both: &BothTables<'_>,
    suspect: &Suspect<'_>,
) -> Result<MacChoices, AllocError>
    ensures { IfOk result (λ m. choices_view m ≡ choices_under change (both_view both.now) (suspect_view suspect.now)) }
{
    match change {
        Change::AnotherRow(node, number) => {
            let row = row_at(rows_of(both, node), number, suspect.row);
            right_choices(alloc, row, suspect)
        }
        Change::OtherAlgorithm(algorithm) => choices_with(alloc, algorithm, suspect.row, suspect),
        Change::CutSha256 => cut_sha256(alloc, suspect),
        _ => right_choices(alloc, suspect.row, suspect),
    }
}

// The choices under a change of what else goes into the key derivation.
fn derived_under(change: Change, mut choices: MacChoices) -> MacChoices
    ensures { choices_view result ≡ derived_under change (choices_view choices) }
{
    match change {
        Change::LengthInBytes => {
            choices.output_length = key_length(choices.algorithm);
            choices
        }
        Change::OtherDirection => turned(choices),
        Change::SocketsExchanged => with_sockets_exchanged(choices),
        Change::IsnsExchanged => with_isns_exchanged(choices),
        Change::NoDestinationIsn => {
            choices.destination_isn = 0;
            choices
        }
        Change::OtherConnection(isns) => with_isns(choices, isns),
        _ => choices,
    }
}

// The choices under a change of the MAC's input, or of which part of the MAC is sent.
fn input_under(
    alloc: Global,
    change: Change,
    suspect: &Suspect<'_>,
    mut choices: MacChoices,
) -> Result<MacChoices, AllocError>
    requires { find_ao suspect.now.datagram.now.area ≡ One (view_ao suspect.now.ao) }
    ensures { IfOk result (λ m. choices_view m ≡ input_under change (suspect_view suspect.now) (choices_view choices)) }
{
    match change {
        Change::OtherFlag => choices.with_options = !choices.with_options,
        Change::LapMore => choices.extension = suspect.number / RING + 1,
        Change::LapLess => choices.extension = suspect.number / RING + (RING - 1),
        Change::ChecksumKept => choices.checksum = checksum_of(suspect),
        Change::MacKept => choices.mac_bytes = right_mac(alloc, suspect)?,
        Change::LastBytes => choices.part = MacPart::Last,
        Change::NoPseudoHeader => choices.pseudo_header = false,
        _ => {}
    }
    Ok(choices)
}

/// The choices that follow where one of the right ones is changed so.
pub(crate) fn changed_choices(
    alloc: Global,
    change: Change,
    both: &BothTables<'_>,
    suspect: &Suspect<'_>,
) -> Result<MacChoices, AllocError>
    requires { find_ao suspect.now.datagram.now.area ≡ One (view_ao suspect.now.ao) }
    ensures { IfOk result (λ m. choices_view m ≡ changed_choices change (both_view both.now) (suspect_view suspect.now)
        (right_choices suspect.now.row.now (suspect_view suspect.now))) }
{
    let choices = choices_under(alloc, change, both, suspect)?;
    let keyed = keyed_under(alloc, change, choices)?;
    let choices = input_under(alloc, change, suspect, derived_under(change, keyed))?;
    Ok(choices)
}
