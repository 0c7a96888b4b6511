//! What a row is a key of: the protocol, the algorithm and the master key.
ghost use Rattle.std.specs.Prelude.{◌≡◌, ◌≤◌, codes, length, option_map, option_and_then, IfOk, Some, None};
ghost use Rattle.toml.specs.Data.{get_member};
ghost use Rattle.toml.specs.View.{table_view};
ghost use Rattle.book_keys.specs.Columns.{text_of, is_absent_or, options_flag_of, protocol_of, kdf_of, algorithm_at};
ghost use Rattle.book_keys.specs.Columns.{master_of};
ghost use Rattle.book_keys.specs.Reading.{ReadingGives};

use crate::columns::{is_text, is_word_at, member_at, must, text_at};
use crate::master_key::MasterKey;
use ao_base::{HexProblem, read_hex};
use book_base::Algorithm;
use book_keys::{Column, LONGEST_MASTER_KEY, TableFault};
use std::alloc::Global;
use toml::Table;

/// Whether Interfaces is absent, or the text `all`.
pub fn is_everywhere(table: &Table) -> bool
    ensures { result ≡ is_absent_or (codes "all") (get_member (codes "Interfaces") (table_view table.now)) }
{
    match member_at(table, "Interfaces") {
        Some(value) => value.as_str().is_some_and(|text| is_text(text, "all")),
        None => true,
    }
}

fn read_options(text: &str) -> Option<bool>
    ensures { result ≡ options_flag_of text.now }
{
    if is_text(text, "options") {
        Some(true)
    } else if is_text(text, "no-options") {
        Some(false)
    } else {
        None
    }
}

/// Whether the MAC covers the options, as ProtocolSpecificInfo says it; `None` where it doesn't.
pub fn options_at(table: &Table) -> Option<bool>
    ensures { result ≡ option_and_then options_flag_of (text_of (codes "ProtocolSpecificInfo") (table_view table.now)) }
{
    read_options(text_at(table, "ProtocolSpecificInfo")?)
}

#[tactic(auto, unfolding(book_keys::specs::Columns::protocol_of))]
pub(crate) fn protocol_at(node: u8, row: u8, table: &Table) -> Result<bool, TableFault>
    ensures { result ≡ protocol_of node row (table_view table.now) }
{
    must(
        is_everywhere(table),
        TableFault::Field(node, row, Column::Interfaces),
    )?;
    must(
        is_word_at(table, "Protocol", b"TCP-AO"),
        TableFault::Field(node, row, Column::Protocol),
    )?;
    options_at(table).ok_or(TableFault::Field(node, row, Column::ProtocolSpecificInfo))
}

fn read_kdf(text: &str) -> Option<Algorithm>
    ensures { result ≡ kdf_of text.now }
{
    if is_text(text, "HMAC-SHA-1") {
        Some(Algorithm::HmacSha1)
    } else if is_text(text, "AES-128-CMAC") {
        Some(Algorithm::AesCmac)
    } else if is_text(text, "HMAC-SHA-256") {
        Some(Algorithm::HmacSha256)
    } else {
        None
    }
}

/// The algorithm to which the function that KDF names belongs; `None` where it names none.
pub fn kdf_at(table: &Table) -> Option<Algorithm>
    ensures { result ≡ option_and_then kdf_of (text_of (codes "KDF") (table_view table.now)) }
{
    read_kdf(text_at(table, "KDF")?)
}

#[tactic(auto, unfolding(book_keys::specs::Columns::algorithm_at))]
pub(crate) fn algorithm_at(node: u8, row: u8, table: &Table) -> Result<Algorithm, TableFault>
    ensures { result ≡ algorithm_at node row (table_view table.now) }
{
    let kdf = kdf_at(table).ok_or(TableFault::Field(node, row, Column::Kdf))?;
    must(
        is_word_at(table, "AlgID", kdf.name()),
        TableFault::Field(node, row, Column::AlgId),
    )?;
    Ok(kdf)
}

#[tactic(auto, unfolding(book_keys::specs::Columns::master_of))]
pub(crate) fn master_at(
    alloc: Global,
    node: u8,
    row: u8,
    text: Option<&str>,
) -> Result<MasterKey, TableFault>
    ensures { ReadingGives (λ key. key.bytes.items) result (master_of node row (option_map (λ s. s.now) text.entry)) }
{
    let fault = TableFault::Field(node, row, Column::Key);
    let Some(text) = text else {
        return Err(fault);
    };
    match read_hex(alloc, text.as_bytes()) {
        Ok(bytes) => {
            let bytes = bytes.into_vec();
            if !bytes.is_empty() && bytes.len() <= LONGEST_MASTER_KEY {
                Ok(MasterKey { bytes })
            } else {
                Err(fault)
            }
        }
        Err(HexProblem::Memory) => Err(TableFault::Memory),
        Err(HexProblem::NotHex) => Err(fault),
    }
}
