//! What came as ICMP.
ghost use Rattle.std.specs.Prelude.{◌≡◌};
ghost use Rattle.book_shim.specs.Quoting.{is_ignored};
ghost use Rattle.shim_pairs.specs.Holdings.{rows_for};

use crate::pairs::Pairs;
use ao_shim::is_keyed;
use book_shim::Notice;

impl Pairs {
    /// Whether what came as ICMP is kept from the own kernel.
    pub(crate) fn ignores(&self, notice: Notice) -> bool
        ensures { result ≡ is_ignored (rows_for self.now) notice }
    {
        match notice {
            Notice::Unread => true,
            Notice::Other => false,
            Notice::Quotes(pair) => match self.tables.table(&pair.local.address) {
                None => false,
                Some(table) => is_keyed(table, &pair),
            },
        }
    }
}
