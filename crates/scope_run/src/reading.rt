//! Reading what the words ask for.
ghost use Rattle.std.specs.Prelude.{◌≡◌, ℕ, List, MatchResult, Ok};
ghost use Rattle.ao_base.specs.Outside.{Side};
ghost use Rattle.book_keys.specs.Nodes.{tables_of};
ghost use Rattle.book_scope_run.specs.Endings.{most_from};
ghost use Rattle.book_sessions.specs.GivenLines.{given_isns_of};
ghost use Rattle.scope_keys.specs.KeyFiles.{key_file_in, key_file_of};
ghost use Rattle.scope_run.specs.Acts.{ReadsKeys};
ghost use Rattle.scope_run.specs.Readings.{judged_files, sheets_of, IsnsFail, JudgesIsns, JudgesTexts, KeysGive};
ghost use Rattle.scope_run.specs.Readings.{ReadsFiles, ReadsIf, ReadsJudged, ReadsWhole};

use crate::halt::{halt_of_isns, halt_of_keys, halt_of_reading};
use ao_base::{Source, read_all};
use book_base::Bytes;
use book_scope_run::{Halt, Origin};
use book_sessions::GivenIsns;
use key_table::{MOST_KEYS, Tables, read_tables};
use scope_keys::{KeyFile, read_key_file};
use scope_sessions::read_given;
use std::alloc::Global;

/// The most bytes of a file of initial sequence numbers.
const MOST_ISNS: u64 = 4_194_304;

/// The most bytes of an input that is read whole.
const MOST_INPUT: u64 = 33_554_432;

/// The texts of the key file and of the file of initial sequence numbers.
#[derive(Drop)]
pub(crate) struct Files {
    pub(crate) keys: Bytes,
    pub(crate) isns: Bytes,
}

/// The key file, and the initial sequence numbers that are given.
#[derive(Drop)]
pub(crate) struct Judged {
    pub(crate) file: KeyFile,
    pub(crate) isns: Vec<GivenIsns>,
}

fn most_from(from: Origin) -> u64
    ensures { result ≡ most_from from }
{
    match from {
        Origin::KeyFile => MOST_KEYS,
        Origin::IsnFile => MOST_ISNS,
        Origin::Input => MOST_INPUT,
    }
}

/// All bytes that come from there.
pub(crate) fn read_whole<S: Source>(alloc: Global, from: Origin, src: &mut S) -> Result<Bytes, Halt>
    ensures { (given : List ℕ) × ReadsWhole from given (S.side src.old) (S.side src.new) result }
{
    match read_all(alloc, src, most_from(from)) {
        Ok(bytes) => Ok(bytes),
        Err(problem) => Err(halt_of_reading(from, problem)),
    }
}

/// All bytes that come from there, where the words ask for them; else none.
fn read_if<S: Source>(
    alloc: Global,
    is_asked: bool,
    from: Origin,
    src: &mut S,
) -> Result<Bytes, Halt>
    ensures { (given : List ℕ) × ReadsIf is_asked from given (S.side src.old) (S.side src.new) result }
{
    if is_asked {
        read_whole(alloc, from, src)
    } else {
        Ok(Bytes::from_vec(Vec::new(alloc)))
    }
}

/// The tables of a key file.
fn tables_in(alloc: Global, keys: &[u8]) -> Result<Tables, Halt>
    ensures { KeysGive (tables_of keys.now) result }
{
    match read_tables(alloc, keys) {
        Ok(tables) => Ok(tables),
        Err(fault) => Err(halt_of_keys(fault)),
    }
}

/// The key file that a text is, with its document.
fn key_file_in(alloc: Global, text: &[u8]) -> Result<KeyFile, Halt>
    ensures { KeysGive (key_file_in text.now) (sheets_of result) }
{
    match read_key_file(alloc, text) {
        Ok(file) => Ok(file),
        Err(fault) => Err(halt_of_keys(fault)),
    }
}

/// The tables of the key file, which is read here.
pub(crate) fn tables_from<K: Source>(alloc: Global, keys: &mut K) -> Result<Tables, Halt>
    ensures { (given : List ℕ) × ReadsKeys tables_of given (K.side keys.old) (K.side keys.new) result }
{
    match read_whole(alloc, Origin::KeyFile, keys) {
        Ok(text) => tables_in(alloc, text.as_slice()),
        Err(why) => Err(why),
    }
}

/// The key file with its document, which is read here.
pub(crate) fn key_file_from<K: Source>(alloc: Global, keys: &mut K) -> Result<KeyFile, Halt>
    ensures { (given : List ℕ) × ReadsKeys key_file_in given (K.side keys.old) (K.side keys.new) (sheets_of result) }
{
    match read_whole(alloc, Origin::KeyFile, keys) {
        Ok(text) => key_file_in(alloc, text.as_slice()),
        Err(why) => Err(why),
    }
}

/// The initial sequence numbers that lines give.
fn isns_in(alloc: Global, isns: &[u8]) -> Result<Vec<GivenIsns>, Halt>
    ensures { MatchResult result (λ given. given_isns_of isns.now ≡ Ok given.items)
        (λ why. IsnsFail why (given_isns_of isns.now)) }
{
    match read_given(alloc, isns) {
        Ok(given) => Ok(given),
        Err(fault) => Err(halt_of_isns(fault)),
    }
}

/// The text of the key file, and then that of the file of initial sequence numbers, where the words ask for it.
fn read_files<K: Source, J: Source>(
    alloc: Global,
    has_isns: bool,
    keys: &mut K,
    isns: &mut J,
) -> Result<Files, Halt>
    ensures { (k j : List ℕ) ×
        ReadsFiles has_isns k j (K.side keys.old) (K.side keys.new) (J.side isns.old) (J.side isns.new) result }
{
    let keys = match read_whole(alloc, Origin::KeyFile, keys) {
        Ok(keys) => keys,
        Err(why) => return Err(why),
    };
    match read_if(alloc, has_isns, Origin::IsnFile, isns) {
        Ok(isns) => Ok(Files { keys, isns }),
        Err(why) => Err(why),
    }
}

/// This key file, and the initial sequence numbers of a text, which are judged here.
fn judge_isns(alloc: Global, file: KeyFile, isns: &[u8]) -> Result<Judged, Halt>
    ensures { JudgesIsns isns.now (Ok (key_file_of file)) (judged_files result) }
{
    match isns_in(alloc, isns) {
        Ok(isns) => Ok(Judged { file, isns }),
        Err(why) => Err(why),
    }
}

/// The texts of both files are judged, the key file first.
fn judge_texts(alloc: Global, files: &Files) -> Result<Judged, Halt>
    ensures { JudgesTexts files.now.keys files.now.isns (judged_files result) }
{
    match key_file_in(alloc, files.keys.as_slice()) {
        Ok(file) => judge_isns(alloc, file, files.isns.as_slice()),
        Err(why) => Err(why),
    }
}

/// The key file is read here, and then the initial sequence numbers, where the words ask for them; and then they are
/// judged, the key file first.
pub(crate) fn judged_from<K: Source, J: Source>(
    alloc: Global,
    has_isns: bool,
    keys: &mut K,
    isns: &mut J,
) -> Result<Judged, Halt>
    ensures { (k j : List ℕ) ×
        ReadsJudged has_isns k j (K.side keys.old) (K.side keys.new) (J.side isns.old) (J.side isns.new)
        (judged_files result) }
{
    match read_files(alloc, has_isns, keys, isns) {
        Ok(files) => judge_texts(alloc, &files),
        Err(why) => Err(why),
    }
}
