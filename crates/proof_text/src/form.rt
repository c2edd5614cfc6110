//! Which form a proof has.

ghost use Rattle.std.specs.Prelude.{◌≡◌};
ghost use Rattle.proof_text.specs.Forms.{begins_with, is_more, is_end, behind_zero, deletes};
ghost use Rattle.proof_text.specs.Forms.{first_line, is_some_nonzero, is_lrat, text_form};
ghost use Rattle.proof_text.specs.Forms.{is_binary_proof, form_of_text};
ghost use Rattle.proof_text.specs.Numbers.{numbers_of};
ghost use Rattle.proof_text.specs.Words.{words, lines, lines_of};

use crate::number::Number;
use crate::reading::pass_zero;
use crate::words::{Lines, Words, cut_line};

/// The forms of proofs.
#[derive(Clone, Copy, Debug, PartialEq, Eq)]
pub enum Form {
    /// LRAT as text.
    Lrat,
    /// DRAT as text.
    Drat,
    /// DRAT in its binary form.
    BinaryDrat,
}

/// The form of a proof. It is binary where its first byte is `a`, or `d` and its first line is no
/// deletion. A text is LRAT where the first number of its first step is not 0, and `d` is next or a
/// 0 stands before the last word.
#[tactic(auto, unfolding(crate::specs::Forms::form_of_text))]
pub fn form_of(proof: &[u8]) -> Form
    ensures { result ≡ form_of_text proof.now }
{
    if is_binary(proof) {
        Form::BinaryDrat
    } else {
        text_form(proof)
    }
}

/// Whether a proof is in the binary form.
#[tactic(auto, unfolding(crate::specs::Forms::is_binary_proof))]
fn is_binary(proof: &[u8]) -> bool
    ensures { result ≡ is_binary_proof proof.now }
{
    begins_with(proof, b'a') || (begins_with(proof, b'd') && !deletes_first(proof))
}

/// Whether this byte stands first.
fn begins_with(proof: &[u8], byte: u8) -> bool
    ensures { result ≡ begins_with byte proof.now }
{
    proof.first().is_some_and(|first| *first == byte)
}

/// Whether the first line deletes a clause of DRAT.
fn deletes_first(proof: &[u8]) -> bool
    ensures { result ≡ deletes (words (first_line (lines proof.now))) }
{
    let (line, _) = cut_line(proof);
    deletes(line)
}

/// Whether a line deletes a clause of DRAT.
#[tactic(auto, unfolding(crate::specs::Forms::deletes))]
fn deletes(line: &[u8]) -> bool
    ensures { result ≡ deletes (words line.now) }
{
    let mut words = Words::of(line);
    words.take_delete() && ends_at_zero(&mut words)
}

/// Whether the first 0 is the last number.
fn ends_at_zero(words: &mut Words<'_>) -> bool
    ensures { result ≡ is_end (behind_zero (numbers_of words.old)) }
{
    pass_zero(words) && words.are_over()
}

/// Whether something stands behind the first 0.
fn goes_on(words: &mut Words<'_>) -> bool
    ensures { result ≡ is_more (behind_zero (numbers_of words.old)) }
{
    pass_zero(words) && !words.are_over()
}

/// Whether it is a number other than 0.
fn is_some_nonzero(number: Option<Number>) -> bool
    ensures { result ≡ is_some_nonzero number }
{
    number.is_some_and(|number| 0 < number.size)
}

/// Whether a line of these words is one of LRAT.
#[tactic(auto, unfolding(crate::specs::Forms::is_lrat))]
fn is_lrat(words: &mut Words<'_>) -> bool
    ensures { result ≡ is_lrat words.old }
{
    is_some_nonzero(words.next_number()) && (words.take_delete() || goes_on(words))
}

/// The form of a text, by its first line that says something.
fn text_form(proof: &[u8]) -> Form
    ensures { result ≡ text_form (lines_of proof.now) }
{
    match Lines::of(proof).next_line() {
        Some((_, mut words)) => {
            if is_lrat(&mut words) {
                Form::Lrat
            } else {
                Form::Drat
            }
        }
        None => Form::Drat,
    }
}
