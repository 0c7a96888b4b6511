//! What is found in the columns that say whose key a row has, and how it is used.
ghost use Rattle.std.specs.Prelude.{◌≡◌, ◌++◌, [], OnOk, codes, is_some, option_and_then};
ghost use Rattle.toml.specs.Data.{get_member};
ghost use Rattle.toml.specs.View.{table_view};
ghost use Rattle.book_keys.specs.Columns.{is_absent_or, is_admin, is_word, kdf_of, options_flag_of, text_of};
ghost use Rattle.book_scope_texts.specs.RowFindings.{alg_id_findings, algorithm_findings, algorithm_wanted, field_at};
ghost use Rattle.book_scope_texts.specs.RowFindings.{field_unless, id_findings, is_algorithm_with, name_findings};
ghost use Rattle.book_scope_texts.specs.RowFindings.{port_findings, protocol_findings};

use crate::field::push_column;
use book_base::Algorithm;
use book_scope_texts::{KeyFinding, KeyPlace};
use key_table::{
    id_at, is_admin_at, is_everywhere, is_word_at, kdf_at, options_at, port_at, text_at,
};
use std::alloc::AllocError;
use toml::Table;

#[tactic(auto, unfolding(book_scope_texts::specs::RowFindings::id_findings))]
fn push_id(
    findings: &mut Vec<KeyFinding>,
    place: &KeyPlace,
    key: &str,
    table: &Table,
) -> Result<(), AllocError>
    ensures { OnOk result (findings.new.items ≡ findings.old.items
        ++ id_findings place.now key.now (table_view table.now)) }
{
    push_column(
        findings,
        id_at(table, key).is_some(),
        place,
        table,
        key,
        b"a KeyID, a text from \"0\" to \"255\"",
    )
}

/// AdminKeyName, LocalKeyName and PeerKeyName.
#[tactic(auto, unfolding(book_scope_texts::specs::RowFindings::name_findings))]
pub(crate) fn push_names(
    findings: &mut Vec<KeyFinding>,
    place: &KeyPlace,
    table: &Table,
) -> Result<(), AllocError>
    ensures { OnOk result (findings.new.items ≡ findings.old.items ++ name_findings place.now (table_view table.now)) }
{
    push_column(
        findings,
        is_admin_at(table),
        place,
        table,
        "AdminKeyName",
        b"a text of 1 to 255 bytes",
    )?;
    push_id(findings, place, "LocalKeyName", table)?;
    push_id(findings, place, "PeerKeyName", table)
}

/// Interfaces, Protocol and ProtocolSpecificInfo.
#[tactic(auto, unfolding(book_scope_texts::specs::RowFindings::protocol_findings))]
pub(crate) fn push_protocol(
    findings: &mut Vec<KeyFinding>,
    place: &KeyPlace,
    table: &Table,
) -> Result<(), AllocError>
    ensures { OnOk result (findings.new.items ≡ findings.old.items
        ++ protocol_findings place.now (table_view table.now)) }
{
    push_column(
        findings,
        is_everywhere(table),
        place,
        table,
        "Interfaces",
        b"\"all\", or no such field",
    )?;
    push_column(
        findings,
        is_word_at(table, "Protocol", b"TCP-AO"),
        place,
        table,
        "Protocol",
        b"\"TCP-AO\"",
    )?;
    push_column(
        findings,
        options_at(table).is_some(),
        place,
        table,
        "ProtocolSpecificInfo",
        b"\"options\" or \"no-options\"",
    )
}

/// Whether AlgID names the algorithm to which the key derivation function belongs, or any where that isn't
/// known.
fn is_algorithm_at(table: &Table, kdf: Option<Algorithm>) -> bool
    ensures { result ≡ is_algorithm_with kdf (text_of (codes "AlgID") (table_view table.now)) }
{
    match kdf {
        Some(algorithm) => is_word_at(table, "AlgID", algorithm.name()),
        None => text_at(table, "AlgID").is_some_and(|text| Algorithm::named(
            text.as_bytes(),
        ).is_some()),
    }
}

#[tactic(auto, unfolding(book_scope_texts::specs::RowFindings::algorithm_wanted))]
fn push_algorithm_wanted(out: &mut Vec<u8>, kdf: Option<Algorithm>) -> Result<(), AllocError>
    ensures { OnOk result (out.new.items ≡ out.old.items ++ algorithm_wanted kdf) }
{
    match kdf {
        Some(algorithm) => {
            out.extend_from_slice(b"\"")?;
            out.extend_from_slice(algorithm.name())?;
            out.extend_from_slice(b"\", which goes with this KDF")
        }
        None => out.extend_from_slice(
            b"\"HMAC-SHA-1-96\", \"AES-128-CMAC-96\" or \"HMAC-SHA-256-128\"",
        ),
    }
}

#[tactic(auto, unfolding(book_scope_texts::specs::RowFindings::alg_id_findings))]
fn push_alg_id(
    findings: &mut Vec<KeyFinding>,
    place: &KeyPlace,
    kdf: Option<Algorithm>,
    table: &Table,
) -> Result<(), AllocError>
    ensures { OnOk result (findings.new.items ≡ findings.old.items
        ++ alg_id_findings place.now kdf (table_view table.now)) }
{
    let mut wanted = Vec::new(*findings.allocator());
    push_algorithm_wanted(&mut wanted, kdf)?;
    push_column(
        findings,
        is_algorithm_at(table, kdf),
        place,
        table,
        "AlgID",
        wanted.as_slice(),
    )
}

/// KDF and AlgID.
#[tactic(auto, unfolding(book_scope_texts::specs::RowFindings::algorithm_findings))]
pub(crate) fn push_algorithm(
    findings: &mut Vec<KeyFinding>,
    place: &KeyPlace,
    table: &Table,
) -> Result<(), AllocError>
    ensures { OnOk result (findings.new.items ≡ findings.old.items
        ++ algorithm_findings place.now (table_view table.now)) }
{
    let kdf = kdf_at(table);
    push_column(
        findings,
        kdf.is_some(),
        place,
        table,
        "KDF",
        b"\"HMAC-SHA-1\", \"AES-128-CMAC\" or \"HMAC-SHA-256\"",
    )?;
    push_alg_id(findings, place, kdf, table)
}

/// A port.
#[tactic(auto, unfolding(book_scope_texts::specs::RowFindings::port_findings))]
pub(crate) fn push_port(
    findings: &mut Vec<KeyFinding>,
    place: &KeyPlace,
    key: &str,
    table: &Table,
) -> Result<(), AllocError>
    ensures { OnOk result (findings.new.items ≡ findings.old.items
        ++ port_findings place.now key.now (table_view table.now)) }
{
    push_column(
        findings,
        port_at(table, key).is_some(),
        place,
        table,
        key,
        b"a text from \"0\" to \"65535\", or no such field",
    )
}
