//! The pairs go on with the tables of another key file.
ghost use Rattle.std.specs.Prelude.{◌≡◌, IfOk};
ghost use Rattle.shim_pairs.specs.Holdings.{are_low, brought, carried};

use crate::pairs::Pairs;
use crate::saved::Saved;
use key_table::Tables;
use std::alloc::{AllocError, Global};

/// The greatest number.
const GREATEST: u64 = 1 << 63;

/// Whether the numbers are at most 2^63, as those of each guard are.
fn are_low(saved: &Saved) -> bool
    ensures { result ≡ are_low saved.now }
{
    saved.sent <= GREATEST && saved.heard <= GREATEST
}

impl Pairs {
    /// Goes on at `now` with a connection, if one was saved and may be brought back.
    fn bring(&mut self, now: u64, saved: &Option<Saved>)
        ensures { self.new ≡ brought now saved.now self.old }
    {
        match saved {
            None => {}
            Some(saved) => {
                if are_low(saved) {
                    match self.restore(now, saved) {
                        Ok(()) => {}
                        Err(_) => {}
                    }
                }
            }
        }
    }

    /// The pairs with other tables, at `now`: each connection that is held is brought back.
    pub(crate) fn carried(
        &self,
        alloc: Global,
        now: u64,
        tables: Tables,
    ) -> Result<Pairs, AllocError>
        ensures { IfOk result (λ s. s ≡ carried now self.now tables) }
    {
        let mut next = Pairs::new(alloc, tables, self.entries.most())?;
        for at in 0..self.len() {
            next.bring(now, &self.saved(at));
        }
        Ok(next)
    }
}
