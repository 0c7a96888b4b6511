//! The calendar of a planned rollover.
ghost use Rattle.std.specs.Prelude.{◌≡◌, ◌≤◌, ◌<◌, ◌+◌, ◌-◌, ◌++◌, ℕ, nat_le, IfOk, OnOk};
ghost use Rattle.std.specs.List.{All};
ghost use Rattle.book_keys.specs.Lifetimes.{contains};
ghost use Rattle.book_keys.specs.Plans.{mirrored, rows_at};
ghost use Rattle.book_keys.specs.Rows.{sendable, acceptable};
ghost use Rattle.book_plans.specs.Calendar.{planned, is_number, has_role, turn_at, turn_by, role_turn, row_turns};
ghost use Rattle.book_plans.specs.Calendar.{turns_from, turns_after, turns_in, calendar_of, Keeps};

use book_base::{Address, End, Pair};
use book_plans::{Role, Turn};
use key_table::{Lifetime, Row, Table, Tables, mirrored};
use std::alloc::{AllocError, Global};

fn is_sendable(row: &Row, pair: &Pair, time: u64) -> bool
    ensures { result ≡ sendable pair.now time row.now }
{
    row.matches(pair) && (row.direction().sends() && row.sending().contains(time))
}

fn is_acceptable(row: &Row, pair: &Pair, time: u64) -> bool
    ensures { result ≡ acceptable pair.now time row.now }
{
    row.matches(pair) && (row.direction().receives() && row.accepting().contains(time))
}

fn is_number(number: u8, found: Option<u8>) -> bool
    ensures { result ≡ is_number number found }
{
    found == Some(number)
}

/// The second after a time, at an end of a connection that has a table.
#[derive(Drop)]
struct Second<'a> {
    end: End,
    table: &'a Table,
    pair: Pair,
    time: u64,
}

impl<'a> Second<'a> {
    /// Whether the row of this number has the role at the time.
    fn has_role(&self, number: u8, row: &Row, role: Role, time: u64) -> bool
        ensures { result ≡ has_role (planned self.now.end self.now.table.now.rows self.now.pair) number time row.now
            role }
    {
        match role {
            Role::Acceptable => is_acceptable(row, &self.pair, time),
            Role::AskedFor => is_number(number, self.table.next_row(&self.pair, time)),
            Role::Sendable => is_sendable(row, &self.pair, time),
            Role::SentWith => is_number(number, self.table.send_row(&self.pair, time)),
        }
    }

    /// Adds the turn of a row and a role, if there is one.
    fn add_role(
        &self,
        turns: &mut Vec<Turn>,
        number: u8,
        row: &Row,
        role: Role,
    ) -> Result<(), AllocError>
        requires { self.now.time < 18446744073709551615 }
        ensures { OnOk result (turns.new.items ≡ turns.old.items
            ++ role_turn (planned self.now.end self.now.table.now.rows self.now.pair) self.now.time number row.now
            role) }
    {
        let time = self.time + 1;
        let before = self.has_role(number, row, role, self.time);
        let now = self.has_role(number, row, role, time);
        push_turn(turns, time, self.end, number, role, before, now)
    }

    /// Adds the turns of a row.
    fn add_row(&self, turns: &mut Vec<Turn>, number: u8, row: &Row) -> Result<(), AllocError>
        requires { self.now.time < 18446744073709551615 }
        ensures { OnOk result (turns.new.items ≡ turns.old.items
            ++ row_turns (planned self.now.end self.now.table.now.rows self.now.pair) self.now.time number row.now) }
    {
        self.add_role(turns, number, row, Role::Acceptable)?;
        self.add_role(turns, number, row, Role::AskedFor)?;
        self.add_role(turns, number, row, Role::Sendable)?;
        self.add_role(turns, number, row, Role::SentWith)?;
        Ok(())
    }

    /// Adds the turns of each row, in order.
    fn add_all(&self, turns: &mut Vec<Turn>) -> Result<(), AllocError>
        requires { self.now.time < 18446744073709551615 }
        ensures { OnOk result (turns.new.items ≡ turns.old.items
            ++ turns_from (planned self.now.end self.now.table.now.rows self.now.pair) self.now.time 1
            self.now.table.now.rows) }
    {
        // It tells that a table has at most 64 rows, so that each number fits.
        let _count = self.table.rows();
        let rows = self.table.entries();
        for (i, row) in rows.iter().enumerate() {
            self.add_row(turns, (i + 1) as u8, row)?;
        }
        Ok(())
    }
}

/// Adds the turn of a row and a role, by whether it has it before and now.
fn push_turn(
    turns: &mut Vec<Turn>,
    time: u64,
    end: End,
    row: u8,
    role: Role,
    before: bool,
    now: bool,
) -> Result<(), AllocError>
    ensures { OnOk result (turns.new.items ≡ turns.old.items ++ turn_by before now (turn_at end time row role)) }
{
    if before == now {
        return Ok(());
    }
    turns.push(Turn {
        time,
        end,
        row,
        role,
        begins: now,
    })?;
    Ok(())
}

/// The time up to which, from `time` on and to `to`, what is from `first` on doesn't begin in the second
/// after.
fn before_start(first: u64, time: u64, to: u64) -> u64
    requires { time ≤ to }
    ensures above { time ≤ result }
    ensures below { result ≤ to }
    ensures steady { (t : ℕ) → time ≤ t → t < result → nat_le first t ≡ nat_le first (t + 1) }
{
    if time < first && first <= to {
        first - 1
    } else {
        to
    }
}

/// The same, where what is until `last` doesn't end.
fn before_end(last: u64, time: u64, to: u64) -> u64
    requires { time ≤ to }
    ensures above { time ≤ result }
    ensures below { result ≤ to }
    ensures steady { (t : ℕ) → time ≤ t → t < result → nat_le t last ≡ nat_le (t + 1) last }
{
    if time <= last && last < to { last } else { to }
}

/// The same, where the lifetime neither begins nor ends.
fn steady_for(lifetime: &Lifetime, time: u64, to: u64) -> u64
    requires { time ≤ to }
    ensures above { time ≤ result }
    ensures below { result ≤ to }
    ensures steady { (t : ℕ) → time ≤ t → t < result → contains lifetime.now t ≡ contains lifetime.now (t + 1) }
{
    let until = before_start(lifetime.first, time, to);
    before_end(lifetime.last, time, until)
}

/// The same of both lifetimes of a row.
fn steady_row(row: &Row, time: u64, to: u64) -> u64
    requires { time ≤ to }
    ensures above { time ≤ result }
    ensures below { result ≤ to }
    ensures steady { (t : ℕ) → time ≤ t → t < result → Keeps t row.now }
{
    let sending = row.sending();
    let accepting = row.accepting();
    let until = steady_for(&sending, time, to);
    steady_for(&accepting, time, until)
}

/// The same of each row.
fn steady_rows(rows: &[Row], time: u64, to: u64) -> u64
    requires { time ≤ to }
    ensures above { time ≤ result }
    ensures below { result ≤ to }
    ensures steady { (t : ℕ) → time ≤ t → t < result → All (Keeps t) rows.now }
{
    let mut until = to;
    for row in rows {
        until = steady_row(row, time, until);
    }
    until
}

/// Adds the turns of the rows of a node in the second after a time; none where no node has the address.
fn add_end(
    turns: &mut Vec<Turn>,
    tables: &Tables,
    address: &Address,
    end: End,
    pair: Pair,
    time: u64,
) -> Result<(), AllocError>
    requires { time < 18446744073709551615 }
    ensures { OnOk result (turns.new.items ≡ turns.old.items ++ turns_from
        (planned end (rows_at tables.now address.now) pair) time 1 (rows_at tables.now address.now)) }
{
    match tables.table(address) {
        Some(table) => {
            let second = Second {
                end,
                table,
                pair,
                time,
            };
            second.add_all(turns)
        }
        None => Ok(()),
    }
}

/// Adds the turns at both ends in the second after a time.
fn add_second(
    turns: &mut Vec<Turn>,
    tables: &Tables,
    pair: &Pair,
    time: u64,
) -> Result<(), AllocError>
    requires { time < 18446744073709551615 }
    ensures { OnOk result (turns.new.items ≡ turns.old.items ++ turns_after (rows_at tables.now pair.now.local.address)
        (rows_at tables.now pair.now.remote.address) pair.now time) }
{
    add_end(turns, tables, &pair.local.address, End::A, *pair, time)?;
    add_end(
        turns,
        tables,
        &pair.remote.address,
        End::B,
        mirrored(pair),
        time,
    )?;
    Ok(())
}

/// The calendar of a connection: all turns after `from` until `to`, in seconds since 1970, in order;
/// end A is the local one. At one time those of A come before those of B, those of a lower row before
/// those of a higher, and of a row `Acceptable`, `AskedFor`, `Sendable`, `SentWith` in this order. A row
/// has a turn at a time exactly where it has the role in one of that second and the second before. An
/// address that no node has stands for a table without rows.
pub fn calendar(
    alloc: Global,
    tables: &Tables,
    pair: &Pair,
    from: u64,
    to: u64,
) -> Result<Vec<Turn>, AllocError>
    ensures { IfOk result (λ v. v.items ≡ calendar_of tables.now pair.now from to) }
{
    let here = tables.rows_at(&pair.local.address);
    let there = tables.rows_at(&pair.remote.address);
    let mut turns = Vec::new(alloc);
    let mut time = from;
    while time < to {
        let until = steady_rows(here, time, to);
        let quiet = steady_rows(there, time, until);
        if quiet >= to {
            return Ok(turns);
        }
        add_second(&mut turns, tables, pair, quiet)?;
        time = quiet + 1;
    }
    Ok(turns)
}
