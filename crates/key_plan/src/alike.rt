//! In which columns two rows differ.
ghost use Rattle.std.specs.Prelude.{◌≡◌};
ghost use Rattle.book_keys.specs.Plans.{accepts_from};
ghost use Rattle.book_plans.specs.Differences.{differences};

use book_base::Pair;
use book_plans::Differences;
use key_table::{Row, mirrored};

/// In which columns the other end's row `other` differs from one that accepts what `row` sends over
/// the connection, which is given as the end of `row` sees it (RFC 5925, section 3.1). There are none
/// exactly where it accepts that, at whatever time.
pub fn differences(pair: &Pair, row: &Row, other: &Row) -> Differences
    ensures { result ≡ differences pair.now row.now other.now }
{
    let back = mirrored(pair);
    Differences {
        connection: !other.matches(&back),
        direction: !other.direction().receives(),
        key_id: other.recv_id() != row.send_id(),
        master: !other.has_master_of(row),
        algorithm: !other.has_algorithm_of(row),
        options: !other.has_flag_of(row),
    }
}

/// Whether the other end's row accepts what this row sends, at whatever time. The ids are compared
/// first, since most rows differ in them.
#[tactic(auto, using(book_plans::proofs::DifferenceLaws::alike_accepts))]
pub(crate) fn is_accepting_from(pair: &Pair, row: &Row, other: &Row) -> bool
    ensures { result ≡ accepts_from pair.now row.now other.now }
{
    let differences = differences(pair, row, other);
    differences.is_none()
}
