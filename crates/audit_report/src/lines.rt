//! What reports are put together from.

ghost use Rattle.std.specs.Prelude.{◌≡◌, ◌++◌, OnOk};
ghost use Rattle.audit_report.specs.Report.{field, line_of, lines_of, count_line, name_of};

use crate::told::ToldTxn;
use itoa::Buffer;
use std::alloc::AllocError;

/// Appends bytes.
pub fn put(out: &mut Vec<u8>, bytes: &[u8]) -> Result<(), AllocError>
    ensures put { OnOk result (out.new.items ≡ out.old.items ++ bytes.now) }
{
    out.extend_from_slice(bytes)
}

/// Appends a number, behind these bytes.
#[tactic(auto, unfolding(crate::specs::Report::field))]
pub fn put_number(out: &mut Vec<u8>, front: &[u8], number: usize) -> Result<(), AllocError>
    ensures put { OnOk result (out.new.items ≡ out.old.items ++ field front.now number) }
{
    let mut digits = Buffer::new();
    out.extend_from_slice(front)?;
    out.extend_from_slice(digits.format(number).as_bytes())
}

/// Appends a line.
pub fn put_line(out: &mut Vec<u8>, line: &String) -> Result<(), AllocError>
    ensures put { OnOk result (out.new.items ≡ out.old.items ++ line_of line.now) }
{
    out.extend_from_slice(line.as_bytes())?;
    out.push(b'\n')?;
    Ok(())
}

/// Appends lines.
pub fn put_lines(out: &mut Vec<u8>, lines: &[String]) -> Result<(), AllocError>
    ensures put { OnOk result (out.new.items ≡ out.old.items ++ lines_of lines.now) }
{
    for line in lines {
        put_line(out, line)?;
    }
    Ok(())
}

/// Appends a word, a space and a number, as a line.
pub fn put_count(out: &mut Vec<u8>, word: &[u8], count: usize) -> Result<(), AllocError>
    ensures put { OnOk result (out.new.items ≡ out.old.items ++ count_line word.now count) }
{
    put(out, word)?;
    put_number(out, b" ", count)?;
    out.push(b'\n')?;
    Ok(())
}

/// Appends the name of a transaction.
pub fn put_name(out: &mut Vec<u8>, txn: ToldTxn) -> Result<(), AllocError>
    ensures put { OnOk result (out.new.items ≡ out.old.items ++ name_of txn) }
{
    put_number(out, b"", txn.session)?;
    put_number(out, b".", txn.place)
}
