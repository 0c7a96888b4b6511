//! What the check goes by at a segment.
ghost use Rattle.std.specs.Prelude.{◌≡◌, ◌≤◌, ◌^◌, IfSome, if◌then◌else◌};
ghost use Rattle.book_cmd_check.specs.Captures.{acknowledged_isn};
ghost use Rattle.book_segments.specs.Options.{One, find_ao};
ghost use Rattle.book_segments.specs.Segments.{ACK, has};
ghost use Rattle.book_why.specs.Sights.{ao_at, isns_at, isns_of_syn, known_at, number_at, row_at, suspect_at};
ghost use Rattle.tcp_segment.specs.Views.{view_ao};
ghost use Rattle.scope_why.specs.MacsViews.{suspect_view};
ghost use Rattle.scope_why.specs.Finding.{Finds, IsWithin, numbered_of};
ghost use Rattle.scope_why.specs.Views.{sight_of};

use crate::inquiry::Inquiry;
use crate::suspect::Suspect;
use book_why::IsnPair;
use capture_check::{acknowledged_isn, pair_at};
use key_table::{Accept, Row};
use tcp_segment::{AoFound, AoOption, Datagram, Flag, extend};

/// A row with its number in its table, from 1.
#[derive(Clone, Copy)]
pub(crate) struct NumberedRow<'a> {
    pub(crate) number: u8,
    pub(crate) row: &'a Row,
}

// The initial sequence number of a SYN's destination, 0 where it isn't known.
fn destination_isn(datagram: &Datagram<'_>) -> u32
    ensures { result ≡ (if has ACK datagram.now then acknowledged_isn datagram.now else 0) }
{
    if datagram.has(Flag::Ack) {
        acknowledged_isn(datagram)
    } else {
        0
    }
}

/// The initial sequence numbers of a SYN: its own, and with ACK that which it acknowledges, else 0.
pub(crate) fn isns_of_syn(datagram: &Datagram<'_>) -> IsnPair
    ensures { result ≡ isns_of_syn datagram.now }
{
    IsnPair {
        source_isn: datagram.sequence(),
        destination_isn: destination_isn(datagram),
    }
}

/// The initial sequence numbers in the context of a segment, where they are known.
pub(crate) fn isns_at(inquiry: &Inquiry<'_>) -> Option<IsnPair>
    ensures { result ≡ isns_at (sight_of inquiry.now) }
{
    if inquiry.datagram.has(Flag::Syn) {
        return Some(isns_of_syn(inquiry.datagram));
    }
    inquiry.known.map(|known| IsnPair {
        source_isn: known.source_isn,
        destination_isn: known.destination_isn,
    })
}

/// The number that is expected of the source of a segment, where it is known; none at a SYN.
pub(crate) fn expected_at(inquiry: &Inquiry<'_>) -> Option<u64>
    requires { IsWithin inquiry.now }
    ensures expected { result ≡ (known_at (sight_of inquiry.now)).expected }
    ensures limit { IfSome result (λ n. n ≤ 2 ^ 63) }
{
    if inquiry.datagram.has(Flag::Syn) {
        return None;
    }
    inquiry.known.map(|known| known.expected)
}

/// The number of a segment, where it isn't below 0.
pub(crate) fn number_at(inquiry: &Inquiry<'_>) -> Option<u64>
    requires { IsWithin inquiry.now }
    ensures { result ≡ number_at (sight_of inquiry.now) }
{
    match expected_at(inquiry) {
        None => Some(u64::from(inquiry.datagram.sequence())),
        Some(expected) => extend(inquiry.datagram.sequence(), expected),
    }
}

/// The one TCP-AO option of a segment, if it has one, without TCP MD5 beside it.
pub(crate) fn ao_at<'a>(inquiry: &Inquiry<'a>) -> Option<AoOption<'a>>
    ensures found { Finds view_ao result (ao_at (sight_of inquiry.now)) }
    ensures one { IfSome result (λ ao. find_ao inquiry.now.datagram.now.area ≡ One (view_ao ao)) }
{
    match inquiry.datagram.options().find_ao() {
        AoFound::Absent => None,
        AoFound::Two => None,
        AoFound::WithMd5 => None,
        AoFound::One(ao) => Some(ao),
    }
}

/// The row that takes a segment, if one does.
pub(crate) fn row_at<'a>(inquiry: &Inquiry<'a>) -> Option<NumberedRow<'a>>
    ensures { Finds numbered_of result (row_at (sight_of inquiry.now)) }
{
    let ao = ao_at(inquiry)?;
    match inquiry
        .table
        .accept_row(&pair_at(inquiry.datagram), ao.key_id, inquiry.time)
    {
        Accept::Absent => None,
        Accept::Expired => None,
        Accept::Row(number) => Some(NumberedRow {
            number,
            row: inquiry.table.row(number),
        }),
    }
}

/// A segment whose MAC is in question, where its option, its row, its initial sequence numbers and its number
/// are known.
pub(crate) fn suspect_at<'a>(inquiry: &Inquiry<'a>) -> Option<Suspect<'a>>
    requires { IsWithin inquiry.now }
    ensures found { Finds suspect_view result (suspect_at (sight_of inquiry.now)) }
    ensures one { IfSome result (λ s. find_ao s.datagram.now.area ≡ One (view_ao s.ao)) }
{
    let ao = ao_at(inquiry)?;
    let found = row_at(inquiry)?;
    let isns = isns_at(inquiry)?;
    let number = number_at(inquiry)?;
    Some(Suspect {
        datagram: inquiry.datagram,
        ao,
        number,
        source_isn: isns.source_isn,
        destination_isn: isns.destination_isn,
        row: found.row,
    })
}
