//! The theorem, as a clause of a function that does nothing.
ghost use Rattle.std.specs.Prelude.{◌≡◌, ℕ, List, Err};
ghost use Rattle.book_keys.specs.declared.fault.TableFault.{TableFault};
ghost use Rattle.book_keys.specs.Nodes.{document_of, tables_of};
ghost use Rattle.book_scope_texts.specs.FileFindings.{key_findings};
ghost use Rattle.law_keys.specs.FirstFindings.{BeginsWith, IsFindingOf};

/// If a key file isn't read, its findings begin with one of the fault: of the fault's node and row, and of the field
/// that its column names. The column `Other` stands for the first key that isn't known there, or else for the key of a
/// value that should be a table.
pub fn first_finding_is_the_fault()
    ensures { (text : List ℕ) (fault : TableFault) → tables_of text ≡ Err fault
        → BeginsWith (IsFindingOf (document_of text) fault) (key_findings text) }
{}
