//! A key file as it is read.
ghost use Rattle.std.specs.Prelude.{◌≡◌, IfOk, Some};
ghost use Rattle.toml.specs.View.{table_view};
ghost use Rattle.book_keys.specs.Nodes.{document_of, tables_of};
ghost use Rattle.book_keys.specs.Reading.{ReadingGives};
ghost use Rattle.scope_keys.specs.KeyFiles.{key_file_in, key_file_of};

use key_table::{TableFault, Tables, read_document, tables_in};
use std::alloc::Global;
use toml::Table;

/// A key file as it is read: the document that it is, and the tables that it stands for.
#[derive(Drop)]
pub struct KeyFile {
    pub document: Table,
    pub tables: Tables,
}

/// Reads a key file, as `key_table::read_tables` does, and keeps the document beside the tables. An error is the fault
/// that `read_tables` tells; `Memory` comes only if memory runs out.
pub fn read_key_file(alloc: Global, text: &[u8]) -> Result<KeyFile, TableFault>
    ensures file { ReadingGives key_file_of result (key_file_in text.now) }
    ensures tables { ReadingGives (λ keys. keys.tables) result (tables_of text.now) }
    ensures document { IfOk result (λ keys. document_of text.now ≡ Some (table_view keys.document)) }
{
    let document = match read_document(alloc, text) {
        Ok(document) => document,
        Err(unread) => return Err(unread.fault()),
    };
    match tables_in(alloc, &document) {
        Ok(tables) => Ok(KeyFile { document, tables }),
        Err(fault) => Err(fault),
    }
}
