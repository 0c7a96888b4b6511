//! What the definitions say of recipes and changes.
ghost use Rattle.std.specs.Prelude.{◌≡◌, ◌≢◌, ◌≤◌, ◌↔◌, ℕ, List, length, Contains, Ok, Err};
ghost use Rattle.book_base.specs.declared.address.Pair.{Pair};
ghost use Rattle.book_keys.specs.Rows.{Row};
ghost use Rattle.book_endpoint.specs.declared.refusal.Refusal.TheVariants.{BadMac};
ghost use Rattle.book_endpoint.specs.Verdicts.{Known, judge, mac_of};
ghost use Rattle.book_why.specs.declared.change.Change.{Change};
ghost use Rattle.book_why.specs.declared.change.Change.TheVariants.{AnotherRow, OtherConnection};
ghost use Rattle.book_why.specs.declared.change.IsnPair.{IsnPair};
ghost use Rattle.book_why.specs.declared.change.SegmentNode.{SegmentNode};
ghost use Rattle.book_why.specs.Changes.{BothTables, all_changes, changed, rows_there, table_at, would_pass};
ghost use Rattle.book_why.specs.Judging.{ComesToItsMac, suspect_finding};
ghost use Rattle.book_why.specs.Recipes.{Suspect, mac_made, recipe_of};

/// The right recipe makes the MAC that the check computes (RFC 5925, section 7.5); so where the check comes
/// to a segment's MAC, it passes exactly where that recipe makes its MAC, and is refused for its MAC exactly
/// where it doesn't.
pub fn right_recipe_is_the_checks()
    ensures mac { (n : ℕ) (s : Suspect) → mac_made (recipe_of s) ≡ mac_of (suspect_finding n s) }
    ensures passes { (rows : List Row) (pair : Pair) (known : Known) (now n : ℕ) (s : Suspect)
        → ComesToItsMac rows pair known now n s
        → s.ao.mac ≡ mac_made (recipe_of s) → judge rows pair known now s.segment ≡ Ok (suspect_finding n s) }
    ensures refused { (rows : List Row) (pair : Pair) (known : Known) (now n : ℕ) (s : Suspect)
        → ComesToItsMac rows pair known now n s
        → s.ao.mac ≢ mac_made (recipe_of s) → judge rows pair known now s.segment ≡ Err BadMac }
{}

/// A segment would pass under exactly the changes of the table whose recipe makes its MAC: none is left out,
/// and none is told falsely. The table has each row of either node, and the initial sequence numbers of each other
/// connection.
pub fn lines_are_those_of_passing_changes()
    ensures passing { (both : BothTables) (others : List IsnPair) (s : Suspect) (change : Change)
        → Contains (would_pass both others s) change
        ↔ (Contains (all_changes both others) change × (s.ao.mac ≡ mac_made (changed change both s))) }
    ensures rows { (both : BothTables) (others : List IsnPair) (node : SegmentNode) (n : ℕ) → 1 ≤ n
        → n ≤ length (rows_there (table_at both node))
        → Contains (all_changes both others) (AnotherRow node n) }
    ensures connections { (both : BothTables) (others : List IsnPair) (isns : IsnPair) → Contains others isns
        → Contains (all_changes both others) (OtherConnection isns) }
{}
