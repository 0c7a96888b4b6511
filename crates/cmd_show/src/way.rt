//! The rows that send from one end of a connection, and their peers at the other end.
ghost use Rattle.std.specs.Prelude.{◌≡◌, ◌==◌, ◌&&◌, ◌≤◌, length, map, option_map, take};
ghost use Rattle.std.specs.List.{list_any};
ghost use Rattle.book_keys.specs.Plans.{mirrored, same_key, accepts_from, outlasts, accepts_throughout, unmet_reason};
ghost use Rattle.book_keys.specs.Plans.{first_unmet, misaligned_answer};
ghost use Rattle.cmd_show.specs.Unmet.{hears, unmet_answer};
ghost use Rattle.book_keys.specs.Rows.{matches, receives, row_limit};

use book_base::{End, Pair};
use book_keys::{LATEST, LintAnswer, ROW_LIMIT};
use key_table::{Row, mirrored};

/// The rows of one end, which send over the connection as that end sees it, and those of the other
/// end, which are to accept from `lead` seconds before until `lag` seconds after.
#[derive(Drop)]
pub(crate) struct Way<'a> {
    pub(crate) rows: &'a [Row],
    pub(crate) others: &'a [Row],
    pub(crate) pair: Pair,
    pub(crate) lead: u64,
    pub(crate) lag: u64,
}

/// Whether the row is for what comes in over the connection, at whatever time.
fn is_hearing(row: &Row, pair: &Pair) -> bool
    ensures { result ≡ (matches row.now pair.now && receives row.now.direction) }
{
    row.direction().receives() && row.matches(pair)
}

/// Whether the two rows have one key, one algorithm and one option flag.
fn is_same_key(one: &Row, other: &Row) -> bool
    ensures { result ≡ same_key one.now other.now }
{
    one.has_algorithm_of(other) && one.has_flag_of(other) && one.has_master_of(other)
}

/// Whether the other end's row has the id and the key that the row's segments name (RFC 5925, section
/// 3.1). The ids are compared first, since most rows differ in them.
fn is_keyed_for(row: &Row, other: &Row) -> bool
    ensures { result ≡ ((other.now.recv_id == row.now.send_id) && same_key other.now row.now) }
{
    other.recv_id() == row.send_id() && is_same_key(other, row)
}

impl<'a> Way<'a> {
    /// The way back.
    pub(crate) fn back(&self) -> Way<'a>
        ensures rows { result.rows.now ≡ self.now.others.now }
        ensures others { result.others.now ≡ self.now.rows.now }
        ensures pair { result.pair ≡ mirrored self.now.pair }
        ensures lead { result.lead ≡ self.now.lead }
        ensures lag { result.lag ≡ self.now.lag }
    {
        Way {
            rows: self.others,
            others: self.rows,
            pair: mirrored(&self.pair),
            lead: self.lead,
            lag: self.lag,
        }
    }

    /// Which rows of the other end are for what comes in over the connection. A row may name many peers,
    /// so they are looked at once for all rows of this end.
    fn hearing(&self) -> [bool; ROW_LIMIT]
        requires { length self.now.others.now ≤ row_limit }
        ensures { take (length self.now.others.now) result ≡ map (hears self.now.pair) self.now.others.now }
    {
        let pair = mirrored(&self.pair);
        let mut hearing = [false; ROW_LIMIT];
        for (i, other) in self.others.iter().enumerate() {
            hearing[i] = is_hearing(other, &pair);
        }
        hearing
    }

    /// Whether the other end's row accepts from `lead` before the first second in which this row sends
    /// until `lag` after the last.
    fn is_outlasting(&self, row: &Row, other: &Row) -> bool
        ensures { result ≡ outlasts self.now.lead self.now.lag row.now other.now }
    {
        let sending = row.sending();
        let accepting = other.accepting();
        accepting.contains(sending.first.saturating_sub(self.lead))
            && accepting.contains(LATEST.min(sending.last.saturating_add(self.lag)))
    }

    /// Whether some row of the other end accepts what this row sends, at whatever time (RFC 5925,
    /// section 3.1).
    fn is_accepted(&self, hearing: &[bool; ROW_LIMIT], row: &Row) -> bool
        requires { take (length self.now.others.now) hearing.now ≡ map (hears self.now.pair) self.now.others.now }
        ensures { result ≡ list_any (accepts_from self.now.pair row.now) self.now.others.now }
    {
        for (i, other) in self.others.iter().enumerate() {
            if hearing[i] && is_keyed_for(row, other) {
                return true;
            }
        }
        false
    }

    /// Whether some row of the other end does, and accepts for so long. The times are compared first,
    /// since rows with one id that hear the same peer accept at different times.
    fn is_accepted_throughout(&self, hearing: &[bool; ROW_LIMIT], row: &Row) -> bool
        requires { take (length self.now.others.now) hearing.now ≡ map (hears self.now.pair) self.now.others.now }
        ensures { result ≡ list_any (accepts_throughout self.now.pair self.now.lead self.now.lag row.now)
            self.now.others.now }
    {
        for (i, other) in self.others.iter().enumerate() {
            if hearing[i] && self.is_outlasting(row, other) && is_keyed_for(row, other) {
                return true;
            }
        }
        false
    }

    /// Why the row of this end and number isn't met at the other end. A row that is met is the usual
    /// case, so that is looked for first.
    #[tactic(auto, using(crate::proofs::JudgementLaws::accepted_too))]
    fn unmet(
        &self,
        hearing: &[bool; ROW_LIMIT],
        end: End,
        number: u8,
        row: &Row,
    ) -> Option<LintAnswer>
        requires { take (length self.now.others.now) hearing.now ≡ map (hears self.now.pair) self.now.others.now }
        ensures { result ≡ unmet_answer end number self.now.others.now self.now.pair self.now.lead self.now.lag
            row.now }
    {
        if !row.is_sending_for(&self.pair) || self.is_accepted_throughout(hearing, row) {
            None
        } else if self.is_accepted(hearing, row) {
            Some(LintAnswer::ShortAccept(end, number))
        } else {
            Some(LintAnswer::NoPeerRow(end, number))
        }
    }

    /// The first row that isn't met at the other end, and why; the rows are those of `end`.
    pub(crate) fn first_unmet(&self, end: End) -> Option<LintAnswer>
        requires rows { length self.now.rows.now ≤ row_limit }
        requires others { length self.now.others.now ≤ row_limit }
        ensures { result ≡ option_map misaligned_answer
            (first_unmet (unmet_reason self.now.others.now self.now.pair self.now.lead self.now.lag) end 1
            self.now.rows.now) }
    {
        let hearing = self.hearing();
        for (i, row) in self.rows.iter().enumerate() {
            if let Some(answer) = self.unmet(&hearing, end, (i + 1) as u8, row) {
                return Some(answer);
            }
        }
        None
    }
}
