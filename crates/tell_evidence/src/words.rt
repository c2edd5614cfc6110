//! What a line says, as a list of words.

ghost use Rattle.std.specs.Prelude.{◌≡◌, ◌++◌, map, OnOk};
ghost use Rattle.session_log.specs.Text.{view};
ghost use Rattle.log_lines.specs.Rows.{rows_of};
ghost use Rattle.tell_evidence.specs.Words.{word_text, words_text};

use crate::paths::put_path;
use crate::phrases::{
    Log, put, put_does, put_in_line, put_name, put_number, put_version, put_wrote,
};
use crate::places::{end_at, key_at, line_of, wid_at};
use level_refutations::{OpAt, Overlooked, TxnAt};
use std::alloc::AllocError;

/// A part of what a line says.
#[derive(Clone, Copy)]
pub enum Word<'a> {
    Text(&'a [u8]),
    /// The name of a transaction, as `2.7`.
    Name(TxnAt),
    /// The key of an operation.
    Key(OpAt),
    /// The identity that it names.
    Wid(OpAt),
    Number(u64),
    /// Its line, as ` (line 12)`.
    AtLine(OpAt),
    /// The line that ends a transaction, as ` (line 12)`.
    AtEnd(TxnAt),
    /// What a transaction wrote of a key, as `the x of 1.3`.
    Version(OpAt),
    /// What a transaction does by an operation, as `2.7 reads x 4 (line 90)`.
    Does(&'a [u8], OpAt),
    /// That a transaction wrote what was told, as `, which 1.2 wrote (line 12)`.
    Wrote(OpAt),
    /// The lines of a path, from a write to the transaction that overlooks it.
    Path(&'a Overlooked),
}

/// Appends words: `tell!(out, log; Name(from), Text(b" comes before "), Name(to))`.
#[macro_export]
macro_rules! tell {
    ($out:expr, $log:expr; $($kind:ident $parts:tt),+) => {
        $crate::words::put_words($out, $log, &[$($crate::words::Word::$kind $parts),+])
    };
}

/// Appends a word.
fn put_word(out: &mut Vec<u8>, log: &Log<'_>, word: &Word<'_>) -> Result<(), AllocError>
    ensures text { OnOk result (out.new.items ≡ out.old.items
        ++ word_text (rows_of log.now.places.now) (map view log.now.sessions.now) word.now) }
{
    match word {
        Word::Text(text) => put(out, text),
        Word::Name(at) => put_name(out, log, *at),
        Word::Key(at) => put(out, key_at(log.sessions, *at)),
        Word::Wid(at) => put_number(out, wid_at(log.sessions, *at)),
        Word::Number(number) => put_number(out, *number),
        Word::AtLine(at) => put_in_line(out, line_of(log.places, *at)),
        Word::AtEnd(at) => put_in_line(out, end_at(log.places, *at)),
        Word::Version(at) => put_version(out, log, *at),
        Word::Does(does, at) => put_does(out, log, does, *at),
        Word::Wrote(at) => put_wrote(out, log, *at),
        Word::Path(it) => put_path(out, log, it.write, &it.path),
    }
}

/// Appends what words say, one behind the other.
#[tactic(auto, using(crate::proofs::Joined::words_next))]
pub fn put_words(out: &mut Vec<u8>, log: &Log<'_>, words: &[Word<'_>]) -> Result<(), AllocError>
    ensures text { OnOk result (out.new.items ≡ out.old.items
        ++ words_text (rows_of log.now.places.now) (map view log.now.sessions.now) words.now) }
{
    for word in words {
        put_word(out, log, word)?;
    }
    Ok(())
}
