//! Why words are refused, as it is told.
ghost use Rattle.std.specs.Prelude.{◌≡◌, ◌++◌, OnOk};
ghost use Rattle.scope_run.specs.Lines.{behind_of, front_of, name_of, usage_text};

use crate::word::{Page, Word};
use std::alloc::AllocError;

/// Why words are refused.
#[derive(Clone, Copy)]
pub enum Cause {
    /// No word of the program is written so.
    UnknownWord,
    /// The word has no such option.
    UnknownOption,
    /// The option is given twice.
    Twice,
    /// The option lacks its value.
    NoValue,
    /// The option has a value, and takes none.
    ValueOfFlag,
    /// The argument is missing.
    Missing,
    /// There is no such argument.
    TooMany,
    /// The option is there without `--draw`.
    WithoutDraw,
}

/// Why words are refused, the word, option or argument that is at fault, and the page of help that says more.
#[derive(Clone, Copy)]
pub struct Usage<'w> {
    pub page: Page,
    pub cause: Cause,
    pub text: &'w [u8],
}

/// What is told in front of the text.
fn front_of(cause: Cause) -> &'static [u8]
    ensures { result.now ≡ front_of cause }
{
    match cause {
        Cause::UnknownWord => b"unknown word ",
        Cause::UnknownOption => b"unknown option ",
        Cause::TooMany => b"one argument too many, ",
        _ => b"",
    }
}

/// What is told behind it.
fn behind_of(cause: Cause) -> &'static [u8]
    ensures { result.now ≡ behind_of cause }
{
    match cause {
        Cause::Twice => b" is given twice",
        Cause::NoValue => b" lacks its value",
        Cause::ValueOfFlag => b" takes no value",
        Cause::Missing => b" is missing",
        Cause::WithoutDraw => b" needs --draw",
        _ => b"",
    }
}

/// The word with a space in front; of the program's page none.
fn name_of(page: Page) -> &'static [u8]
    ensures { result.now ≡ name_of page }
{
    match page {
        Page::Program => b"",
        Page::Of(Word::Lines) => b" lines",
        Page::Of(Word::Check) => b" check",
        Page::Of(Word::Sessions) => b" sessions",
        Page::Of(Word::Why) => b" why",
        Page::Of(Word::Keys) => b" keys",
        Page::Of(Word::Plan) => b" plan",
        Page::Of(Word::Draw) => b" draw",
        Page::Of(Word::Echo) => b" echo",
    }
}

/// The line that tells why words are refused.
pub fn push_usage(out: &mut Vec<u8>, usage: &Usage<'_>) -> Result<(), AllocError>
    ensures { OnOk result (out.new.items
        ≡ out.old.items ++ usage_text usage.now.page usage.now.cause usage.now.text.now) }
{
    out.extend_from_slice(b"usage: ")?;
    out.extend_from_slice(front_of(usage.cause))?;
    out.extend_from_slice(usage.text)?;
    out.extend_from_slice(behind_of(usage.cause))?;
    out.extend_from_slice(b" (aoscope")?;
    out.extend_from_slice(name_of(usage.page))?;
    out.extend_from_slice(b" --help)\n")
}
