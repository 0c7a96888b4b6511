//! The first time at which an end has no row to send with.
ghost use Rattle.std.specs.Prelude.{◌≡◌, ◌≤◌, length};
ghost use Rattle.book_keys.specs.Plans.{gap};
ghost use Rattle.book_keys.specs.Rows.{row_limit};

use book_base::Pair;
use book_keys::ROW_LIMIT;
use key_table::{Lifetime, Row, first_gap};

/// The least time from `from` to `to`, in seconds since 1970, at which no row is sendable for the
/// pair (RFC 7210, section 3). `None` exactly where there is none.
pub(crate) fn gap(rows: &[Row], pair: &Pair, from: u64, to: u64) -> Option<u64>
    requires { length rows.now ≤ row_limit }
    ensures { result ≡ gap rows.now pair.now from to }
{
    let mut lifetimes = [Lifetime { first: 0, last: 0 }; ROW_LIMIT];
    let mut count = 0;
    for row in rows {
        if row.is_sending_for(pair) {
            lifetimes[count] = row.sending();
            count += 1;
        }
    }
    first_gap(&lifetimes[..count], from, to)
}
