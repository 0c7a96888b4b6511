//! A bar with what is drawn of it.
ghost use Rattle.std.specs.Prelude.{◌≡◌, option_map};
ghost use Rattle.book_scope_plan.specs.Bars.{bar_shown, shown_bar};
ghost use Rattle.draw_plan.specs.Drawn.{shown_of};

use crate::wrong::Connected;
use book_base::Pair;
use book_scope_plan::{Bar, Duty, Slice};
use key_table::Row;
use plan_texts::row_numbered;

/// A bar with what is drawn of it: the name of its node, the pair as that sees it, the time that is drawn, the
/// number of its row, from 1, the row, and what of it the bar shows.
#[derive(Clone, Copy)]
pub struct ShownBar<'a> {
    pub name: &'a [u8],
    pub pair: Pair,
    pub time: Slice,
    pub number: u8,
    pub row: &'a Row,
    pub duty: Duty,
}

impl<'a> Connected<'a> {
    /// A bar of this connection with what is drawn of it over the time; `None` where no row has its number.
    pub fn shown(&self, time: &Slice, bar: Bar) -> Option<ShownBar<'a>>
        ensures { option_map shown_of result ≡ shown_bar self.now.tables.a.now self.now.tables.b.now self.now.pair
            time.now bar }
    {
        let table = self.table(bar.end);
        match row_numbered(table, bar.number) {
            Some(row) => Some(ShownBar {
                name: table.name(),
                pair: self.pair_at(bar.end),
                time: *time,
                number: bar.number,
                row,
                duty: bar.duty,
            }),
            None => None,
        }
    }
}
