//! Ways to mend a plan: another lifetime of a row, and what stands in its way.
ghost use Rattle.std.specs.Prelude.{◌≡◌, ◌≤◌, length, option_map, IfOk, IfSome, true, Some};
ghost use Rattle.std.specs.List.{list_any};
ghost use Rattle.book_keys.specs.Overlaps.{accepts_meet, lifetimes_meet, overlaps, pairs_meet, peer_meets};
ghost use Rattle.book_keys.specs.Overlaps.{peers_meet, ports_meet, sends_meet};
ghost use Rattle.book_keys.specs.Plans.{outlasts, accepts_throughout, send_lifetimes};
ghost use Rattle.book_keys.specs.Rows.{row_limit};
ghost use Rattle.book_plans.specs.Findings.{accepting_in};
ghost use Rattle.book_plans.specs.Ways.{are_none, becomes_endless, changed_row, first_clash, fitting_accepting};
ghost use Rattle.book_plans.specs.Ways.{fitting_sending, is_accepted, keeps_sending, accepting_obstacle, sending_in};
ghost use Rattle.book_plans.specs.Ways.{sending_obstacle};
ghost use Rattle.key_plan.specs.Sides.{lasting, side_of};

use crate::alike::is_accepting_from;
use crate::gaps::add_uncovered;
use crate::plan_findings::{wanted_accepting, widened};
use crate::way::is_in_time;
use ao_base::is_same_address;
use book_base::{Address, End, Pair};
use book_keys::Plan;
use book_plans::{Finding, Obstacle};
use key_table::{LATEST, Lifetime, Row};
use std::alloc::{AllocError, Global};

/// An end of a planned connection: its rows, those of the other end, and the pair as it sees it.
#[derive(Clone, Copy)]
pub struct Side<'a> {
    pub rows: &'a [Row],
    pub others: &'a [Row],
    pub pair: Pair,
    pub plan: Plan,
}

/// When a row sends and accepts.
#[derive(Clone, Copy)]
struct Lasting {
    sending: Lifetime,
    accepting: Lifetime,
}

fn is_peer_meeting(one: &Option<Address>, other: &Option<Address>) -> bool
    ensures { result ≡ peer_meets one.now other.now }
{
    match (one, other) {
        (Some(a), Some(b)) => is_same_address(a, b),
        _ => true,
    }
}

fn is_meeting_any(one: &Option<Address>, others: &[Option<Address>]) -> bool
    ensures { result ≡ list_any (peer_meets one.now) others.now }
{
    others.iter().any(|other| is_peer_meeting(one, other))
}

fn is_peers_meeting(one: &[Option<Address>], other: &[Option<Address>]) -> bool
    ensures { result ≡ peers_meet one.now other.now }
{
    one.iter().any(|peer| is_meeting_any(peer, other))
}

fn is_ports_meeting(one: Option<u16>, other: Option<u16>) -> bool
    ensures { result ≡ ports_meet one other }
{
    match (one, other) {
        (Some(a), Some(b)) => a == b,
        _ => true,
    }
}

fn is_lifetimes_meeting(one: Lifetime, other: Lifetime) -> bool
    ensures { result ≡ lifetimes_meet one other }
{
    one.first.max(other.first) <= one.last.min(other.last)
}

fn is_pairs_meeting(one: &Row, other: &Row) -> bool
    ensures { result ≡ pairs_meet one.now other.now }
{
    is_ports_meeting(one.local_port(), other.local_port())
        && is_ports_meeting(one.peer_port(), other.peer_port())
        && is_peers_meeting(one.peers(), other.peers())
}

fn is_accepts_meeting(one: &Row, held: Lasting, other: &Row) -> bool
    ensures { result ≡ accepts_meet (lasting held.sending held.accepting one.now) other.now }
{
    one.direction().receives()
        && other.direction().receives()
        && one.recv_id() == other.recv_id()
        && is_lifetimes_meeting(held.accepting, other.accepting())
}

fn is_sends_meeting(one: &Row, held: Lasting, other: &Row) -> bool
    ensures { result ≡ sends_meet (lasting held.sending held.accepting one.now) other.now }
{
    one.direction().sends()
        && other.direction().sends()
        && one.send_id() == other.send_id()
        && is_lifetimes_meeting(held.sending, other.sending())
}

/// Whether the row, with these lifetimes, overlaps another.
#[tactic(auto, unfolding(book_keys::specs::Overlaps::overlaps))]
fn is_overlapping(one: &Row, held: Lasting, other: &Row) -> bool
    ensures { result ≡ overlaps (lasting held.sending held.accepting one.now) other.now }
{
    (is_accepts_meeting(one, held, other) || is_sends_meeting(one, held, other))
        && is_pairs_meeting(one, other)
}

/// The first row but that of this number which the row, with these lifetimes, overlaps.
fn first_clash(row: &Row, held: Lasting, number: u8, rows: &[Row]) -> Option<u8>
    requires { length rows.now ≤ row_limit }
    ensures { result ≡ first_clash (lasting held.sending held.accepting row.now) number 1 rows.now }
{
    for (i, other) in rows.iter().enumerate() {
        let at = (i + 1) as u8;
        if at != number && is_overlapping(row, held, other) {
            return Some(at);
        }
    }
    None
}

fn becomes_endless(before: Lifetime, after: Lifetime) -> bool
    ensures { result ≡ becomes_endless before after }
{
    before.last < LATEST && LATEST <= after.last
}

/// Whether the other end's row accepts what this row sends, where it sends in this lifetime, from the lead before
/// until the lag after.
fn is_accepting_in(plan: &Plan, pair: &Pair, row: &Row, sending: Lifetime, other: &Row) -> bool
    ensures { result ≡ accepts_throughout pair.now plan.now.lead plan.now.lag (sending_in sending row.now) other.now }
{
    is_accepting_from(pair, row, other)
        && is_in_time(plan.lead, plan.lag, sending, other.accepting())
}

impl<'a> Side<'a> {
    /// Whether some row of the other end accepts throughout what the row sends in this lifetime.
    fn is_accepted(&self, row: &Row, sending: Lifetime) -> bool
        ensures { result ≡ is_accepted (side_of self.now) (sending_in sending row.now) }
    {
        self.others.iter().any(|other| is_accepting_in(&self.plan, &self.pair, row, sending, other))
    }

    /// The send lifetimes of the rows that send over the connection, where that of this number has another.
    fn lifetimes_with(
        &self,
        alloc: Global,
        number: u8,
        sending: Lifetime,
    ) -> Result<Vec<Lifetime>, AllocError>
        requires { length self.now.rows.now ≤ row_limit }
        ensures { IfOk result
            (λ v. v.items ≡ send_lifetimes (changed_row (sending_in sending) number 1 self.now.rows.now)
            self.now.pair) }
    {
        let mut lifetimes = Vec::new(alloc);
        for (i, row) in self.rows.iter().enumerate() {
            if row.is_sending_for(&self.pair) {
                let at = (i + 1) as u8;
                let lifetime = if at == number { sending } else { row.sending() };
                lifetimes.push(lifetime)?;
            }
        }
        Ok(lifetimes)
    }

    /// Whether at each time of the plan the end has a row to send with, where the row of this number sends in this
    /// lifetime.
    #[tactic(auto, using(book_plans::proofs::FindingLaws::uncovered_is_gap))]
    fn keeps_sending(
        &self,
        alloc: Global,
        number: u8,
        sending: Lifetime,
    ) -> Result<bool, AllocError>
        requires { length self.now.rows.now ≤ row_limit }
        ensures { IfOk result (λ keeps. keeps ≡ keeps_sending (side_of self.now) number (sending_in sending)) }
    {
        let lifetimes = self.lifetimes_with(alloc, number, sending)?;
        let mut gaps = Vec::new(alloc);
        let (from, to) = (self.plan.from, self.plan.to);
        add_uncovered(&mut gaps, lifetimes.as_slice(), End::A, from, to)?;
        Ok(are_none(gaps.as_slice()))
    }

    /// What stands in the way of another send lifetime of the row of this number.
    #[tactic(auto, unfolding(book_plans::specs::Ways::sending_obstacle))]
    pub fn sending_obstacle(
        &self,
        alloc: Global,
        number: u8,
        row: &Row,
        sending: Lifetime,
    ) -> Result<Option<Obstacle>, AllocError>
        requires { length self.now.rows.now ≤ row_limit }
        ensures { IfOk result (λ o. o ≡ sending_obstacle (side_of self.now) number row.now sending) }
    {
        let held = Lasting {
            sending,
            accepting: row.accepting(),
        };
        if sending.last < sending.first {
            return Ok(Some(Obstacle::Empty));
        }
        if becomes_endless(row.sending(), sending) {
            return Ok(Some(Obstacle::Endless));
        }
        if let Some(other) = first_clash(row, held, number, self.rows) {
            return Ok(Some(Obstacle::Overlap(other)));
        }
        if !self.is_accepted(row, sending) {
            return Ok(Some(Obstacle::Refused));
        }
        if !self.keeps_sending(alloc, number, sending)? {
            return Ok(Some(Obstacle::Gap));
        }
        Ok(None)
    }
}

fn are_none(findings: &[Finding]) -> bool
    ensures { result ≡ are_none findings.now }
{
    findings.is_empty()
}

/// What stands in the way of another accept lifetime of the row of this number among its table's.
#[tactic(auto, unfolding(book_plans::specs::Ways::accepting_obstacle))]
pub fn accepting_obstacle(
    rows: &[Row],
    number: u8,
    row: &Row,
    accepting: Lifetime,
) -> Option<Obstacle>
    requires { length rows.now ≤ row_limit }
    ensures { result ≡ accepting_obstacle rows.now number row.now accepting }
{
    let held = Lasting {
        sending: row.sending(),
        accepting,
    };
    if becomes_endless(row.accepting(), accepting) {
        return Some(Obstacle::Endless);
    }
    match first_clash(row, held, number, rows) {
        Some(other) => Some(Obstacle::Overlap(other)),
        None => None,
    }
}

/// When the row may send so that the other end's row accepts from `lead` before until `lag` after.
pub fn fitting_sending(lead: u64, lag: u64, row: &Row, other: &Row) -> Lifetime
    ensures { result ≡ fitting_sending lead lag row.now other.now }
{
    let sending = row.sending();
    let accepting = other.accepting();
    let wanted = wanted_accepting(row, lead, lag);
    let first = if wanted.first < accepting.first {
        LATEST.min(accepting.first.saturating_add(lead))
    } else {
        sending.first
    };
    let last = if accepting.last < wanted.last {
        accepting.last.saturating_sub(lag)
    } else {
        sending.last
    };
    Lifetime { first, last }
}

/// When the other end's row accepts, and all the time that this row wants.
pub fn fitting_accepting(lead: u64, lag: u64, row: &Row, other: &Row) -> Lifetime
    ensures { result ≡ fitting_accepting lead lag row.now other.now }
{
    widened(other.accepting(), wanted_accepting(row, lead, lag))
}
