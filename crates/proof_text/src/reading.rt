//! The numbers of a line, read up to a 0.

ghost use Rattle.std.specs.Prelude.{◌≡◌, IfOk};
ghost use Rattle.std.specs.Bool.{then_some};
ghost use Rattle.proof_text.specs.Numbers.{numbers_of, before_zero, whole, literal_of, id_of};
ghost use Rattle.proof_text.specs.Forms.{behind_zero};

use crate::number::{id_of, literal_of};
use crate::words::Words;
use serializability::Literal;
use std::alloc::AllocError;

/// Reads the literals up to a 0, which is passed over, and says whether they are such.
#[tactic(auto, using(crate::proofs::UpToZero::read_steps))]
pub(crate) fn read_literals(
    words: &mut Words<'_>,
    variables: u32,
    literals: &mut Vec<Literal>,
) -> Result<bool, AllocError>
    ensures { IfOk result (λ read. before_zero (literal_of variables) (numbers_of words.old) ≡
        then_some read (literals.new.items, numbers_of words.new)) }
{
    literals.clear();
    while let Some(number) = words.next_number() {
        if number.size == 0 {
            return Ok(true);
        }
        let Some(literal) = literal_of(number, variables) else {
            break;
        };
        literals.push(literal)?;
    }
    Ok(false)
}

/// Reads the IDs up to a 0, which is passed over, and says whether they are such.
#[tactic(auto, using(crate::proofs::UpToZero::read_steps))]
fn read_ids(
    words: &mut Words<'_>,
    is_hint: bool,
    ids: &mut Vec<Option<u64>>,
) -> Result<bool, AllocError>
    ensures { IfOk result (λ read. before_zero (id_of is_hint) (numbers_of words.old) ≡
        then_some read (ids.new.items, numbers_of words.new)) }
{
    ids.clear();
    while let Some(number) = words.next_number() {
        if number.size == 0 {
            return Ok(true);
        }
        let Some(id) = id_of(number, is_hint) else {
            break;
        };
        ids.push(id)?;
    }
    Ok(false)
}

/// The same where the line ends behind that 0.
pub(crate) fn read_last_ids(
    words: &mut Words<'_>,
    is_hint: bool,
    ids: &mut Vec<Option<u64>>,
) -> Result<bool, AllocError>
    ensures { IfOk result (λ read. whole (before_zero (id_of is_hint) (numbers_of words.old)) ≡
        then_some read ids.new.items) }
{
    Ok(read_ids(words, is_hint, ids)? && words.are_over())
}

/// Reads the literals up to a 0, which is to stand at the end of the line.
pub(crate) fn read_last_literals(
    words: &mut Words<'_>,
    variables: u32,
    literals: &mut Vec<Literal>,
) -> Result<bool, AllocError>
    ensures { IfOk result (λ read.
        whole (before_zero (literal_of variables) (numbers_of words.old)) ≡
        then_some read literals.new.items) }
{
    Ok(read_literals(words, variables, literals)? && words.are_over())
}

/// Passes over numbers and the first 0, where there is one and only numbers stand before it.
#[tactic(auto, using(crate::proofs::UpToZero::pass_steps))]
pub(crate) fn pass_zero(words: &mut Words<'_>) -> bool
    ensures { behind_zero (numbers_of words.old) ≡ then_some result (numbers_of words.new) }
{
    while let Some(number) = words.next_number() {
        if number.size == 0 {
            return true;
        }
    }
    false
}
