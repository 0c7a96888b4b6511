//! Tables that fit an end go on fitting, as clauses of functions that do nothing.
ghost use Rattle.std.specs.Prelude.{◌≡◌, ℕ, List, Some};
ghost use Rattle.book_keys.specs.Rows.{Row};
ghost use Rattle.book_keys.specs.Tables.{adding, AddedAs, withdrawn};
ghost use Rattle.tcp_endpoint.specs.declared.endpoint.Endpoint.{Endpoint as End};
ghost use Rattle.tcp_endpoint.specs.Ends.{FitsEnd};

/// A table that fits an end goes on fitting once a row is added.
pub fn end_fits_once_added()
    ensures { (rows new : List Row) (r : Row) (n : ℕ) (e : End) → adding rows r ≡ AddedAs n new → FitsEnd rows e
        → FitsEnd new e }
{}

/// A table that fits an end goes on fitting once a row is withdrawn.
pub fn end_fits_once_withdrawn()
    ensures { (rows new : List Row) (n : ℕ) (e : End) → withdrawn rows n ≡ Some new → FitsEnd rows e → FitsEnd new e }
{}
