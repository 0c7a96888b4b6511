//! Theorems about the definitions, as clauses of functions that do nothing.
ghost use Rattle.std.specs.Prelude.{◌≡◌, ◌↔◌, ℕ, ◌<◌, Bool, true, false, List, [], length, slice_index_or, Some};
ghost use Rattle.std.specs.Prelude.{None, Ok, Err};
ghost use Rattle.std.specs.List.{All};
ghost use Rattle.book_base.specs.declared.address.Address.{Address};
ghost use Rattle.book_base.specs.declared.address.Pair.{Pair};
ghost use Rattle.book_base.specs.declared.algorithm.Algorithm.{Algorithm};
ghost use Rattle.book_keys.specs.Rows.{Row, Table, sendable, acceptable};
ghost use Rattle.book_keys.specs.Shared.{shared_tables};
ghost use Rattle.book_keys.specs.Nodes.{document_of, tables_of};
ghost use Rattle.book_keys.specs.declared.fault.TableFault.TheVariants.{Syntax};
ghost use Rattle.book_keys.specs.Overlaps.{Overlap, overlaps, AreApart, IsValid, TwoRows, first_overlap};
ghost use Rattle.book_keys.specs.Overlaps.{IsFirstOverlap};
ghost use Rattle.book_keys.specs.Choices.{Numbered, latest, lowest, IsLatest, IsLowest};

/// The test of two rows by their columns is true exactly where they overlap.
pub fn overlaps_is_overlap()
    ensures { (a b : Row) → (overlaps a b ≡ true) ↔ Overlap a b }
{}

/// In a valid table at most one row with a given RecvID is acceptable for a pair at a time, and at
/// most one with a given SendID is sendable.
pub fn one_row_under_an_id()
    ensures acceptable { (rows : List Row) (pair : Pair) (time j k : ℕ) (d : Row) → IsValid rows
        → j < length rows → k < length rows
        → acceptable pair time (slice_index_or rows j d) ≡ true
        → acceptable pair time (slice_index_or rows k d) ≡ true
        → (slice_index_or rows j d).recv_id ≡ (slice_index_or rows k d).recv_id → j ≡ k }
    ensures sendable { (rows : List Row) (pair : Pair) (time j k : ℕ) (d : Row) → IsValid rows
        → j < length rows → k < length rows
        → sendable pair time (slice_index_or rows j d) ≡ true
        → sendable pair time (slice_index_or rows k d) ≡ true
        → (slice_index_or rows j d).send_id ≡ (slice_index_or rows k d).send_id → j ≡ k }
{}

/// The two rows that are found are the least that overlap; where none are found, no two overlap.
pub fn first_overlap_is_least()
    ensures some { (rows : List Row) (two : TwoRows) → first_overlap 1 rows ≡ Some two → IsFirstOverlap rows two }
    ensures none { (rows : List Row) → first_overlap 1 rows ≡ None → AreApart rows }
{}

/// The row that is chosen by its start qualifies, has the greatest start, and is the lowest with
/// it; where none is chosen, no row qualifies.
pub fn latest_is_greatest()
    ensures some { (good : Row → Bool) (start : Row → ℕ) (rows : List Row) (n : Numbered)
        → latest good start 1 rows ≡ Some n → IsLatest good start rows n }
    ensures none { (good : Row → Bool) (start : Row → ℕ) (rows : List Row)
        → latest good start 1 rows ≡ None → All (λ r. good r ≡ false) rows }
{}

/// The row that is chosen as the lowest qualifies, and no row before it does; where none is chosen,
/// no row qualifies.
pub fn lowest_is_first()
    ensures some { (good : Row → Bool) (rows : List Row) (n : Numbered)
        → lowest good 1 rows ≡ Some n → IsLowest good rows n }
    ensures none { (good : Row → Bool) (rows : List Row)
        → lowest good 1 rows ≡ None → All (λ r. good r ≡ false) rows }
{}

/// Each table of a key file without a fault is valid, and so are the tables of a shared key and a
/// table without rows.
pub fn tables_are_valid()
    ensures file { (text : List ℕ) (tables : List Table) → tables_of text ≡ Ok tables
        → All (λ t. IsValid t.rows) tables }
    ensures shared { (a b : Address) (algorithm : Algorithm) (master : List ℕ)
        → All (λ t. IsValid t.rows) (shared_tables a b algorithm master) }
    ensures empty { IsValid [] }
{}

/// A key file has a fault of syntax exactly where its bytes are no document: no UTF-8 or no TOML.
pub fn syntax_is_no_document()
    ensures { (text : List ℕ) → (tables_of text ≡ Err Syntax) ↔ (document_of text ≡ None) }
{}
