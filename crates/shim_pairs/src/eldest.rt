//! Which pair goes for want of room.
ghost use Rattle.std.specs.Prelude.{◌≡◌, option_map};
ghost use Rattle.shim_pairs.specs.Holdings.{eldest};
ghost use Rattle.shim_pairs.specs.Ages.{next};

use crate::entry::Entry;
use book_base::Pair;
use pair_table::PairTable;

/// A pair, and when something of it passed last.
#[derive(Clone, Copy)]
struct Aged {
    pair: Pair,
    last: u64,
}

/// Of two pairs the one of which nothing passed for longer; the first of both.
fn elder(known: Option<Aged>, other: Aged) -> Aged
    ensures { result ≡ next known other }
{
    match known {
        None => other,
        Some(known) => {
            if known.last <= other.last {
                known
            } else {
                other
            }
        }
    }
}

/// The pair of which nothing passed for longest; the first of several.
#[tactic(auto, using(crate::proofs::EldestLaws::lowest_is_eldest))]
pub(crate) fn eldest(entries: &PairTable<Entry>) -> Option<Pair>
    ensures { result ≡ option_map (λ e. e.0) (eldest entries.now.entries) }
{
    let mut oldest: Option<Aged> = None;
    for at in 0..entries.len() {
        match entries.at(at) {
            None => {}
            Some((pair, entry)) => {
                let other = Aged {
                    pair: *pair,
                    last: entry.last,
                };
                oldest = Some(elder(oldest, other));
            }
        }
    }
    match oldest {
        None => None,
        Some(known) => Some(known.pair),
    }
}
