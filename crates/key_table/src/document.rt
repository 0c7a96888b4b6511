//! The document that a key file is.
ghost use Rattle.std.specs.Prelude.{◌≡◌, IfErr, IfOk, Some};
ghost use Rattle.toml.specs.View.{table_view};
ghost use Rattle.book_keys.specs.Nodes.{document_of};
ghost use Rattle.key_table.specs.Documents.{Unreadable, unread_fault};

use book_keys::TableFault;
use std::alloc::Global;
use toml::Table;

/// Why a text gave no document.
#[derive(Clone, Copy, Debug)]
pub enum Unread {
    /// From the byte with this index on it isn't UTF-8.
    NotUtf8(usize),
    /// From the byte with this index on it is no TOML, for what the reader of TOML says.
    NotToml(usize, toml::de::Error),
    /// Memory ran out.
    Memory,
}

impl Unread {
    /// The fault of a key file whose text gave no document.
    pub fn fault(&self) -> TableFault
        ensures { result ≡ unread_fault self.now }
    {
        match self {
            Unread::NotUtf8(_) => TableFault::Syntax,
            Unread::NotToml(_, _) => TableFault::Syntax,
            Unread::Memory => TableFault::Memory,
        }
    }
}

/// The document that a text is. `NotUtf8` and `NotToml` come only if it is none; `Memory`, which comes where memory
/// was refused, leaves open whether it is one.
#[tactic(auto, using(crate::proofs::TextLaws::document_read))]
pub fn read_document(alloc: Global, text: &[u8]) -> Result<Table, Unread>
    ensures document { IfOk result (λ t. document_of text.now ≡ Some (table_view t)) }
    ensures refused { IfErr result (Unreadable text.now) }
{
    let text = match std::str::from_utf8(text) {
        Ok(text) => text,
        Err(error) => return Err(Unread::NotUtf8(error.valid_up_to())),
    };
    match toml::table_from_str(alloc, text) {
        Ok(table) => Ok(table),
        Err(error) => match error.span() {
            Some(span) => Err(Unread::NotToml(span.start, error)),
            None => Err(Unread::Memory),
        },
    }
}
