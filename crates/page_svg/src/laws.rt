//! A theorem about tags, as a clause of a function that does nothing.
ghost use Rattle.std.specs.Prelude.{◌≡◌, ℕ, List, true};
ghost use Rattle.std.specs.List.{list_all};
ghost use Rattle.page_svg.specs.Tags.{escaped, is_plain};

/// What is written between tags has none of the bytes that would end it or begin a tag: `<`, `>` and `"`.
pub fn escaped_text_has_no_mark()
    ensures { (text : List ℕ) → list_all is_plain (escaped text) ≡ true }
{}
