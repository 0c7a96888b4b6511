//! Theorems about the findings of key files, as clauses of functions that do nothing.
ghost use Rattle.std.specs.Prelude.{◌≡◌, ◌↔◌, ℕ, List, [], IsOk, Some};
ghost use Rattle.toml.specs.Data.{Members, table};
ghost use Rattle.book_keys.specs.Nodes.{tables_of};
ghost use Rattle.book_scope_texts.specs.declared.finding.KeyFinding.{KeyFinding};
ghost use Rattle.book_scope_texts.specs.declared.finding.KeyPlace.{KeyPlace};
ghost use Rattle.book_scope_texts.specs.declared.finding.TextPlace.{TextPlace};
ghost use Rattle.book_scope_texts.specs.FileFindings.{key_findings};
ghost use Rattle.book_scope_texts.specs.Places.{IsPlaceOf, finding_place};
ghost use Rattle.book_scope_texts.specs.RowFindings.{AlikeButKey, row_findings};

/// Nothing is found wrong with a key file exactly where it is read.
pub fn findings_are_of_the_walk()
    ensures { (text : List ℕ) → (key_findings text ≡ []) ↔ IsOk (tables_of text) }
{}

/// A place that is told is a line of the text that belongs to the node and the row of the finding, by the
/// headers in front of it, and begins with the finding's field or is their header. The text is plain: but for
/// comments no line of it has three quotes side by side or an opening brace.
pub fn told_places_are_theirs()
    ensures { (text : List ℕ) (finding : KeyFinding) (place : TextPlace) → finding_place text finding ≡ Some place
        → IsPlaceOf text finding place }
{}

/// What is found in a row tells no master key: it is the same of two rows that differ in Key alone, where the
/// two values look alike: both missing, both of one type that is no text, or two texts of one length, both
/// keys or none for the same reason.
pub fn master_keys_are_not_told()
    ensures { (place : KeyPlace) (one other : Members) → AlikeButKey one other
        → row_findings place (table one) ≡ row_findings place (table other) }
{}
