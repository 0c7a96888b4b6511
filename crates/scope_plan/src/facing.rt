//! A connection as one of its ends sees it.
ghost use Rattle.std.specs.Prelude.{◌≡◌};
ghost use Rattle.book_scope_plan.specs.FindingTexts.{facing_at};
ghost use Rattle.book_scope_plan.specs.PlanTexts.{facing};
ghost use Rattle.scope_plan.specs.Facings.{facing_of};
ghost use Rattle.scope_keys.specs.KeyFiles.{key_file_of};

use book_base::{End, Pair};
use book_cmd_link::Plan;
use draw_plan::Connected;
use key_table::{Table, mirrored};
use scope_keys::KeyFile;

/// A connection as one of its ends sees it: the document that the key file is, the table of its node, that
/// of the other end's, the pair, and what is asked of the plan.
#[derive(Clone, Copy)]
pub(crate) struct Facing<'a> {
    pub(crate) document: &'a toml::Table,
    pub(crate) node: &'a Table,
    pub(crate) other: &'a Table,
    pub(crate) pair: Pair,
    pub(crate) plan: Plan,
}

impl<'a> Facing<'a> {
    /// The connection as end A sees it.
    pub(crate) fn new(keys: &'a KeyFile, ends: &Connected<'a>, plan: &Plan) -> Facing<'a>
        ensures { facing_of result ≡ facing (key_file_of keys.now) ends.now.tables.a.now ends.now.tables.b.now plan.now
            ends.now.pair }
    {
        Facing {
            document: &keys.document,
            node: ends.tables.a,
            other: ends.tables.b,
            pair: ends.pair,
            plan: *plan,
        }
    }

    /// The connection as this end sees it, which is given as end A does.
    pub(crate) fn at(&self, end: End) -> Facing<'a>
        ensures { facing_of result ≡ facing_at end (facing_of self.now) }
    {
        match end {
            End::A => *self,
            End::B => Facing {
                document: self.document,
                node: self.other,
                other: self.node,
                pair: mirrored(&self.pair),
                plan: self.plan,
            },
        }
    }
}
