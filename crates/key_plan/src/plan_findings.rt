//! All that doesn't hold of a planned rollover.
ghost use Rattle.std.specs.Prelude.{◌≡◌, ◌↔◌, ◌≤◌, ◌++◌, [], length, option_map, IfOk, OnOk};
ghost use Rattle.std.specs.List.{list_any};
ghost use Rattle.book_keys.specs.declared.lint.LintAnswer.TheVariants as answer;
ghost use Rattle.book_keys.specs.Plans.{mirrored, accepts_from, accepts_throughout, unmet_reason, lint_of};
ghost use Rattle.book_keys.specs.Rows.{row_limit};
ghost use Rattle.book_plans.specs.Findings.{finding_by, unmet_findings, findings, findings_of, first_answer};
ghost use Rattle.book_plans.specs.Findings.{wanted_accepting, widened};

use crate::alike::is_accepting_from;
use crate::gaps::add_gaps;
use crate::way::is_accepting_throughout;
use book_base::{End, Pair};
use book_plans::Finding;
use key_table::{LATEST, Lifetime, Row, Tables, mirrored};
use std::alloc::{AllocError, Global};

/// The rows of one end, which send over the connection as that end sees it, and those of the other
/// end, which are to accept from `lead` seconds before until `lag` seconds after.
#[derive(Drop)]
struct Way<'a> {
    rows: &'a [Row],
    others: &'a [Row],
    pair: Pair,
    lead: u64,
    lag: u64,
}

impl<'a> Way<'a> {
    /// The way back.
    fn back(&self) -> Way<'a>
        ensures rows { result.rows.now ≡ self.now.others.now }
        ensures others { result.others.now ≡ self.now.rows.now }
        ensures pair { result.pair ≡ mirrored self.now.pair }
        ensures lead { result.lead ≡ self.now.lead }
        ensures lag { result.lag ≡ self.now.lag }
    {
        Way {
            rows: self.others,
            others: self.rows,
            pair: mirrored(&self.pair),
            lead: self.lead,
            lag: self.lag,
        }
    }

    fn is_accepted(&self, row: &Row) -> bool
        ensures { result ≡ list_any (accepts_from self.now.pair row.now) self.now.others.now }
    {
        self.others
            .iter()
            .any(|other| is_accepting_from(&self.pair, row, other))
    }

    fn is_accepted_throughout(&self, row: &Row) -> bool
        ensures { result ≡ list_any (accepts_throughout self.now.pair self.now.lead self.now.lag row.now)
            self.now.others.now }
    {
        self.others.iter().any(|other| is_accepting_throughout(
            &self.pair, self.lead, self.lag, row, other,
        ))
    }

    /// Why the row of this end and number isn't met at the other end.
    fn unmet(&self, end: End, number: u8, row: &Row) -> Option<Finding>
        ensures { result ≡ option_map (finding_by end number)
            (unmet_reason self.now.others.now self.now.pair self.now.lead self.now.lag row.now) }
    {
        if !row.is_sending_for(&self.pair) {
            None
        } else if !self.is_accepted(row) {
            Some(Finding::NoPeerRow(end, number))
        } else if !self.is_accepted_throughout(row) {
            Some(Finding::ShortAccept(end, number))
        } else {
            None
        }
    }

    /// Adds each row that isn't met, in order; the rows are those of `end`.
    fn add_unmet(&self, findings: &mut Vec<Finding>, end: End) -> Result<(), AllocError>
        requires { length self.now.rows.now ≤ row_limit }
        ensures { OnOk result (findings.new.items ≡ findings.old.items
            ++ unmet_findings (unmet_reason self.now.others.now self.now.pair self.now.lead self.now.lag) end 1
            self.now.rows.now) }
    {
        for (i, row) in self.rows.iter().enumerate() {
            if let Some(finding) = self.unmet(end, (i + 1) as u8, row) {
                findings.push(finding)?;
            }
        }
        Ok(())
    }
}

/// All findings of the way there, on both ends.
#[tactic(auto, unfolding(book_plans::specs::Findings::findings))]
fn findings_of_both(
    alloc: Global,
    there: &Way,
    from: u64,
    to: u64,
) -> Result<Vec<Finding>, AllocError>
    requires rows { length there.now.rows.now ≤ row_limit }
    requires others { length there.now.others.now ≤ row_limit }
    ensures { IfOk result (λ v. v.items ≡ findings there.now.rows.now there.now.others.now there.now.pair
        (record { lead = there.now.lead; lag = there.now.lag; from = from; to = to })) }
{
    let back = there.back();
    let mut findings = Vec::new(alloc);
    there.add_unmet(&mut findings, End::A)?;
    back.add_unmet(&mut findings, End::B)?;
    add_gaps(
        alloc,
        &mut findings,
        End::A,
        there.rows,
        &there.pair,
        from,
        to,
    )?;
    add_gaps(
        alloc,
        &mut findings,
        End::B,
        back.rows,
        &back.pair,
        from,
        to,
    )?;
    Ok(findings)
}

/// All findings on the tables of the two ends of a connection; end A is the local one. An address that
/// no node has stands for a table without rows.
///
/// First each row of A that sends over the connection and isn't met at B, in order: `NoPeerRow` and
/// `ShortAccept` by the rules of `lint` for this lead and lag. Then those of B; then each gap of A from
/// `from` to `to`, in seconds since 1970, in order, and each of B. There are none exactly where `lint` is
/// `Aligned`; else it names the first.
pub fn findings(
    alloc: Global,
    tables: &Tables,
    pair: &Pair,
    lead: u64,
    lag: u64,
    from: u64,
    to: u64,
) -> Result<Vec<Finding>, AllocError>
    ensures value { IfOk result (λ v. v.items ≡ findings_of tables.now pair.now
        (record { lead = lead; lag = lag; from = from; to = to })) }
    ensures first { IfOk result (λ v. first_answer v.items ≡ lint_of tables.now pair.now
        (record { lead = lead; lag = lag; from = from; to = to })) }
    ensures none { IfOk result
        (λ v. (v.items ≡ [])
        ↔ (lint_of tables.now pair.now (record { lead = lead; lag = lag; from = from; to = to }) ≡ answer.Aligned)) }
{
    let there = Way {
        rows: tables.rows_at(&pair.local.address),
        others: tables.rows_at(&pair.remote.address),
        pair: *pair,
        lead,
        lag,
    };
    findings_of_both(alloc, &there, from, to)
}

/// When a row of the other end is to accept what this row sends: from `lead` seconds before the first
/// second in which it sends, or from 0, until `lag` seconds after the last, or until `LATEST`.
pub fn wanted_accepting(row: &Row, lead: u64, lag: u64) -> Lifetime
    ensures { result ≡ wanted_accepting lead lag row.now }
{
    let sending = row.sending();
    Lifetime {
        first: sending.first.saturating_sub(lead),
        last: LATEST.min(sending.last.saturating_add(lag)),
    }
}

/// The least lifetime that contains both: what the accept lifetime `one` of a row is to be set to, where
/// it is to contain `two` as well.
pub fn widened(one: Lifetime, two: Lifetime) -> Lifetime
    ensures { result ≡ widened one two }
{
    Lifetime {
        first: one.first.min(two.first),
        last: one.last.max(two.last),
    }
}
