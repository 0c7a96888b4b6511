//! Margins, findings and calendars of two nodes with one row each.
use book_base::{Address, Algorithm, Bytes, End, Pair, Socket};
use key_plan::{
    Finding, Margin, Role, Turn, calendar, differences, findings, lag_margin, lead_margin,
    wanted_accepting, widened,
};
use key_table::{Direction, Lifetime, NewRow, Row, Table, Tables};
use std::alloc::{AllocError, Global};
use std::test::Fail;

const A: Address = Address::V4([10, 0, 0, 1]);

const B: Address = Address::V4([10, 0, 0, 2]);

/// The connection between two nodes, as the first one sees it.
fn pair(local: Address, remote: Address) -> Pair {
    Pair {
        local: Socket {
            address: local,
            port: 1000,
        },
        remote: Socket {
            address: remote,
            port: 2000,
        },
    }
}

/// The row of a node: its direction and its key, and the last second in which it sends and accepts,
/// both from 0 on.
#[derive(Clone, Copy)]
struct Terms {
    direction: Direction,
    key: u8,
    sent: u16,
    accepted: u16,
}

/// A row that sends at 0 to 3600 and accepts at 0 to 3660.
const BOTH: Terms = Terms {
    direction: Direction::Both,
    key: 11,
    sent: 3600,
    accepted: 3660,
};

const SHORT: Terms = Terms {
    accepted: 3659,
    ..BOTH
};

const OTHER_KEY: Terms = Terms { key: 12, ..BOTH };

const SEND: Terms = Terms {
    direction: Direction::Send,
    ..BOTH
};

const RECEIVE: Terms = Terms {
    direction: Direction::Receive,
    ..BOTH
};

/// Withdraws row 1, and adds row 2 with these terms.
fn replace_row(alloc: Global, table: &mut Table, terms: Terms) -> Result<(), Fail> {
    table.withdraw(1).ok().ok_or("no row")?;
    let row = NewRow {
        recv_id: 1,
        send_id: 1,
        algorithm: Algorithm::HmacSha1,
        master: Bytes::from_vec(Vec::from_slice(alloc, &[terms.key])?),
        with_options: true,
        direction: terms.direction,
        sending: Lifetime {
            first: 0,
            last: u64::from(terms.sent),
        },
        accepting: Lifetime {
            first: 0,
            last: u64::from(terms.accepted),
        },
    };
    table.add(alloc, row)?;
    Ok(())
}

fn two_nodes(alloc: Global, a: Terms, b: Terms) -> Result<Tables, Fail> {
    let mut tables = Tables::shared(alloc, A, B, Algorithm::HmacSha1, &[1])?;
    for (address, terms) in [(A, a), (B, b)] {
        let table = tables.table_mut(&address).ok_or("no node")?;
        replace_row(alloc, table, terms)?;
    }
    Ok(tables)
}

const ALWAYS: Terms = Terms {
    sent: 65535,
    accepted: 65535,
    ..BOTH
};

// Each call with long clauses stands in a function without any, so that the proof of a test has none of
// them before it.

/// With which lags the tables are aligned where the lead is 0, and with which leads where the lag is.
fn margins(tables: &Tables) -> (Option<Margin>, Option<Margin>) {
    let pair = pair(A, B);
    (lag_margin(tables, &pair, 0), lead_margin(tables, &pair, 0))
}

/// The rows of the two ends, and with which lags they are aligned where the lead is 0.
const CASES: [(Terms, Terms, Option<Margin>); 7] = [
    (BOTH, BOTH, Some(Margin::UpTo(60))),
    (SHORT, BOTH, Some(Margin::UpTo(59))),
    (BOTH, SHORT, Some(Margin::UpTo(59))),
    (ALWAYS, ALWAYS, Some(Margin::UpTo(0))),
    (BOTH, OTHER_KEY, None),
    (SEND, BOTH, None),
    (RECEIVE, RECEIVE, Some(Margin::Any)),
];

#[test]
fn each_margin_is_that_of_the_shortest_row(rt: HostRuntime) -> Result<(), Fail> {
    for (a, b, margin) in CASES {
        let tables = two_nodes(rt.alloc(), a, b)?;
        let leads = match margin {
            None => None,
            Some(_) => Some(Margin::Any),
        };
        assert!(rt; margins(&tables) == (margin, leads));
    }
    Ok(())
}

/// What is found in these seconds with this lag.
fn found(
    alloc: Global,
    tables: &Tables,
    lag: u64,
    from: u64,
    to: u64,
) -> Result<Vec<Finding>, AllocError> {
    findings(alloc, tables, &pair(A, B), 0, lag, from, to)
}

#[test]
fn all_findings_are_told(rt: HostRuntime) -> Result<(), Fail> {
    let tables = two_nodes(rt.alloc(), BOTH, OTHER_KEY)?;
    let found = found(rt.alloc(), &tables, 0, 3500, 3700)?;
    let expected = [
        Finding::NoPeerRow(End::A, 2),
        Finding::NoPeerRow(End::B, 2),
        Finding::Gap(End::A, 3601, 3700),
        Finding::Gap(End::B, 3601, 3700),
    ];
    assert!(rt; found.as_slice() == expected.as_slice());
    Ok(())
}

/// Whether nothing but a lifetime keeps two rows apart.
fn has_no_difference(row: &Row, other: &Row) -> bool {
    differences(&pair(A, B), row, other).is_none()
}

/// The accept lifetime that a row wants of the other where the lag is a minute.
fn wanted(row: &Row, other: &Row) -> Lifetime {
    widened(other.accepting(), wanted_accepting(row, 0, 60))
}

/// Both of row 2 of the two ends.
fn lacking(here: &Table, there: &Table) -> Option<(bool, Lifetime)> {
    if here.rows() != 2 || there.rows() != 2 {
        return None;
    }
    let row = here.row(2);
    let other = there.row(2);
    Some((has_no_difference(row, other), wanted(row, other)))
}

#[test]
fn a_short_row_is_told_what_it_lacks(rt: HostRuntime) -> Result<(), Fail> {
    let tables = two_nodes(rt.alloc(), BOTH, SHORT)?;
    let found = found(rt.alloc(), &tables, 60, 0, 3600)?;
    assert!(rt; found.as_slice() == [Finding::ShortAccept(End::A, 2)].as_slice());
    let here = tables.table(&A).ok_or("no node")?;
    let there = tables.table(&B).ok_or("no node")?;
    let (alike, set) = lacking(here, there).ok_or("no row")?;
    assert!(rt; alike && set.first == 0 && set.last == 3660);
    Ok(())
}

/// The turns of the row up to the second 4000.
fn turns(alloc: Global, tables: &Tables) -> Result<Vec<Turn>, AllocError> {
    calendar(alloc, tables, &pair(A, B), 0, 4000)
}

#[test]
fn the_calendar_names_each_turn(rt: HostRuntime) -> Result<(), Fail> {
    let tables = two_nodes(rt.alloc(), BOTH, BOTH)?;
    let turns = turns(rt.alloc(), &tables)?;
    let expected = [
        (3601, End::A, Role::Sendable),
        (3601, End::A, Role::SentWith),
        (3601, End::B, Role::Sendable),
        (3601, End::B, Role::SentWith),
        (3661, End::A, Role::Acceptable),
        (3661, End::A, Role::AskedFor),
        (3661, End::B, Role::Acceptable),
        (3661, End::B, Role::AskedFor),
    ];
    assert!(rt; turns.len() == expected.len());
    for (turn, (time, end, role)) in turns.iter().zip(expected) {
        assert!(rt; turn.time == time && turn.end == end && turn.role == role);
        assert!(rt; turn.row == 2 && !turn.begins);
    }
    Ok(())
}
