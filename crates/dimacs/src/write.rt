//! The text of a formula goes out.

ghost use Rattle.std.specs.Prelude.{◌≡◌, ℕ, ◌+◌, ◌^◌, ◌<◌, ◌≤◌, if◌then◌else◌, List, Option, []};
ghost use Rattle.std.specs.Prelude.{length, take, is_ok, IfOk, IfErr, OnOk, MatchResult};
ghost use Rattle.std.specs.Io.KnownBytes.{Appends};
ghost use Rattle.order_cnf.specs.Data.{cnf_of};
ghost use Rattle.output.specs.Sinks.{one_more};
ghost use Rattle.dimacs.specs.Sending.{IsUnderWay, IsCutOff};
ghost use Rattle.dimacs.specs.Text.{text_of};

use crate::numeral::Numerals;
use crate::piece::Piece;
use order_cnf::Formula;
use output::{Sink, WriteFault, put_all};

/// Writes the DIMACS text of a formula, and takes no memory. It fails only where the sink does, and
/// then exactly the first `written` bytes of the text went out, and not all.
pub fn write_formula<W: Sink>(sink: &mut W, formula: &Formula) -> Result<(), WriteFault>
    ensures ok { OnOk result
        (Appends (W.bytes sink.old) (W.bytes sink.new) (text_of (cnf_of formula.now))) }
    ensures err { IfErr result (λ e. (e.written < length (text_of (cnf_of formula.now))) ×
        Appends (W.bytes sink.old) (W.bytes sink.new)
        (take e.written (text_of (cnf_of formula.now)))) }
    ensures count { W.failures sink.new ≡
        (if is_ok result then W.failures sink.old else one_more (W.failures sink.old)) }
{
    let mut piece = Piece::new();
    let mut numerals = Numerals::new();
    let mut written = 0;
    piece.push_header(formula.vars(), formula.count());
    for clause in formula.clauses() {
        written = make_room(sink, written, &mut piece)?;
        piece.push_clause(clause, &mut numerals);
    }
    flush(sink, written, &mut piece)?;
    Ok(())
}

/// Sees to it that there is room for a clause.
#[inline]
fn make_room<W: Sink>(sink: &mut W, written: u64, piece: &mut Piece) -> Result<u64, WriteFault>
    requires { written + length piece.old < 2 ^ 64 }
    ensures went { (start : Option (List ℕ)) (rest whole : List ℕ) →
        IsUnderWay start (W.bytes sink.old) written piece.old rest whole →
        MatchResult result
        (λ n. IsUnderWay start (W.bytes sink.new) n piece.new rest whole)
        (λ e. IsCutOff start (W.bytes sink.new) e whole) }
    ensures room { OnOk result (length piece.new + 64 ≤ 16384) }
    ensures kept { IfOk result (λ n. n + length piece.new ≡ written + length piece.old) }
    ensures count { W.failures sink.new ≡
        (if is_ok result then W.failures sink.old else one_more (W.failures sink.old)) }
{
    if piece.has_room() {
        Ok(written)
    } else {
        flush(sink, written, piece)
    }
}

/// Puts the whole piece out, and empties it.
fn flush<W: Sink>(sink: &mut W, written: u64, piece: &mut Piece) -> Result<u64, WriteFault>
    requires { written + length piece.old < 2 ^ 64 }
    ensures went { (start : Option (List ℕ)) (rest whole : List ℕ) →
        IsUnderWay start (W.bytes sink.old) written piece.old rest whole →
        MatchResult result
        (λ n. IsUnderWay start (W.bytes sink.new) n piece.new rest whole)
        (λ e. IsCutOff start (W.bytes sink.new) e whole) }
    ensures empty { OnOk result (piece.new ≡ []) }
    ensures kept { IfOk result (λ n. n ≡ written + length piece.old) }
    ensures count { W.failures sink.new ≡
        (if is_ok result then W.failures sink.old else one_more (W.failures sink.old)) }
{
    let out = put_all(sink, written, piece.as_slice())?;
    piece.clear();
    Ok(out)
}
