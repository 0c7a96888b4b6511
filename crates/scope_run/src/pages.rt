//! The pages of help, as they are printed.
mod captures;
mod key_files;
mod links;
mod program;
mod sessions;

use crate::word::{Page, Word};

/// A page of help.
pub fn help_page(page: Page) -> &'static str {
    match page {
        Page::Program => program::PROGRAM,
        Page::Of(Word::Lines) => program::LINES,
        Page::Of(Word::Check) => captures::CHECK,
        Page::Of(Word::Sessions) => sessions::SESSIONS,
        Page::Of(Word::Why) => captures::WHY,
        Page::Of(Word::Keys) => key_files::KEYS,
        Page::Of(Word::Plan) => key_files::PLAN,
        Page::Of(Word::Draw) => links::DRAW,
        Page::Of(Word::Echo) => links::ECHO,
    }
}
