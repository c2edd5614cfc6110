//! The lines of a text that say something, and the words of each.

ghost use Rattle.std.specs.Prelude.{◌≡◌, ◌+◌, ◌^◌, ◌<◌, ◌≤◌, ℕ, [], ◌∷◌, not, length, drop};
ghost use Rattle.std.specs.Prelude.{position, MatchOption};
ghost use Rattle.std.specs.List.{position_or_len};
ghost use Rattle.proof_text.specs.Forms.{first_line};
ghost use Rattle.proof_text.specs.Numbers.{numbers_of, first_number};
ghost use Rattle.proof_text.specs.Words.{is_blank, words, lines, begins_comment, is_passed};
ghost use Rattle.proof_text.specs.Words.{is_delete, behind_delete, is_empty, stated, lines_of};
ghost use Rattle.proof_text.specs.Words.{IsFound};

use crate::number::{Number, number_of};
use session_log::index_of;
use std::marker::Model;

/// The words of a line that are left.
#[derive(Drop)]
pub(crate) struct Words<'a> {
    rest: &'a [u8],
}

impl<'a> Model for Words<'a> {
    ghost use Rattle.std.specs.Prelude.{List, ℕ};

    ghost Value = { List (List ℕ) };

    ghost use Rattle.proof_text.specs.Words.{words};

    ghost view = { λ w. words w.rest.now };
}

impl<'a> Words<'a> {
    /// The words of a line.
    pub(crate) fn of(line: &'a [u8]) -> Words<'a>
        ensures { result ≡ words line.now }
    {
        Words { rest: line }
    }

    /// Takes the next word.
    pub(crate) fn next_word(&mut self) -> Option<&'a [u8]>
        ensures word { MatchOption result (self.old ≡ []) (λ word. self.old ≡ word.now ∷ self.new) }
        ensures rest { self.new ≡ drop 1 self.old }
    {
        let (word, rest) = cut_word(self.rest)?;
        self.rest = rest;
        Some(word)
    }

    /// Takes the next word, and gives the number that it is.
    pub(crate) fn next_number(&mut self) -> Option<Number>
        ensures number { result ≡ first_number (numbers_of self.old) }
        ensures rest { self.new ≡ drop 1 self.old }
    {
        number_of(self.next_word()?)
    }

    /// Whether no word is left.
    pub(crate) fn are_over(&self) -> bool
        ensures { result ≡ is_empty self.now }
    {
        cut_word(self.rest).is_none()
    }

    /// Takes the word `d`, where it is the next.
    pub(crate) fn take_delete(&mut self) -> bool
        ensures found { result ≡ is_delete self.old }
        ensures rest { self.new ≡ behind_delete self.old }
    {
        match cut_word(self.rest) {
            Some((word, rest)) if word == b"d".as_slice() => {
                self.rest = rest;
                true
            }
            _ => false,
        }
    }
}

#[tactic(auto, unfolding(crate::specs::Words::is_blank))]
fn is_blank(byte: u8) -> bool
    ensures { result ≡ is_blank byte }
{
    byte == b' ' || byte == b'\t' || byte == b'\r'
}

/// The place of the first byte that is no blank.
fn first_text(line: &[u8]) -> Option<usize>
    ensures { result ≡ position (λ b. not (is_blank b)) line.now }
{
    line.iter().position(|b| !is_blank(*b))
}

/// The place of the first blank.
fn first_blank(line: &[u8]) -> Option<usize>
    ensures { result ≡ position is_blank line.now }
{
    line.iter().position(|b| is_blank(*b))
}

/// How many bytes stand before the first blank.
#[tactic(auto, using(crate::proofs::Cutting::position_end))]
fn end_of_word(line: &[u8]) -> usize
    ensures { result ≡ position_or_len is_blank line.now }
{
    first_blank(line).unwrap_or(line.len())
}

/// The first word of a line, where it has one, and what stands behind it.
#[tactic(auto, using(crate::proofs::Cutting::word_cuts))]
fn cut_word(line: &[u8]) -> Option<(&[u8], &[u8])>
    ensures { MatchOption result (words line.now ≡ [])
        (λ cut. words line.now ≡ cut.0.now ∷ words cut.1.now) }
{
    let start = first_text(line)?;
    let (_, from) = line.split_at(start);
    Some(from.split_at(end_of_word(from)))
}

/// The first line of a text, and what stands behind it.
#[tactic(auto, using(crate::proofs::Cutting::line_cuts))]
pub(crate) fn cut_line(text: &[u8]) -> (&[u8], &[u8])
    ensures first { result.0.now ≡ first_line (lines text.now) }
    ensures lines { (n : ℕ) →
        stated n (lines text.now) ≡ stated n (result.0.now ∷ lines result.1.now) }
    ensures shorter { 0 < length text.now → length result.1.now < length text.now }
{
    match index_of(text, b'\n') {
        Some(end) => (&text[..end], &text[end + 1..]),
        None => (text, &[]),
    }
}

/// Whether a word begins a comment.
fn begins_comment(word: &[u8]) -> bool
    ensures { result ≡ begins_comment word.now }
{
    word.first()
        .is_some_and(|byte| *byte == b'c' || *byte == b'%')
}

/// Whether a line says nothing.
fn is_passed(line: &[u8]) -> bool
    ensures { result ≡ is_passed (words line.now) }
{
    cut_word(line).is_none_or(|(word, _)| begins_comment(word))
}

/// The first line that says something: its number, the line, and what stands behind it.
#[tactic(auto, using(crate::proofs::Cutting::line_finds))]
fn find_line(text: &[u8], number: usize) -> Option<(usize, &[u8], &[u8])>
    requires { number + length text.now ≤ 2 ^ 63 }
    ensures { MatchOption result (stated number (lines text.now) ≡ [])
        (λ found. IsFound number text.now found.0 found.1.now found.2.now) }
{
    let mut rest = text;
    let mut number = number;
    while !rest.is_empty() {
        let (line, behind) = cut_line(rest);
        if !is_passed(line) {
            return Some((number, line, behind));
        }
        rest = behind;
        number += 1;
    }
    None
}

/// The lines of a text that are left and say something, each with its number.
#[derive(Drop)]
pub(crate) struct Lines<'a> {
    rest: &'a [u8],
    number: usize,
}

impl<'a> Model for Lines<'a> {
    ghost use Rattle.std.specs.Prelude.{List, ℕ};

    ghost Value = { List (ℕ × List (List ℕ)) };

    ghost use Rattle.std.specs.Prelude.{◌+◌, ◌^◌, ◌≤◌, length};
    ghost use Rattle.proof_text.specs.Words.{stated, lines};

    ghost view = { λ l. stated l.number (lines l.rest.now) };

    ghost invariant = { λ l. l.number + length l.rest.now ≤ 2 ^ 63 };
}

impl<'a> Lines<'a> {
    /// The lines of a text.
    #[tactic(auto, unfolding(crate::specs::Words::lines_of))]
    pub(crate) fn of(text: &'a [u8]) -> Lines<'a>
        ensures { result ≡ lines_of text.now }
    {
        Lines {
            rest: text,
            number: 1,
        }
    }

    /// Takes the next line: its number and its words.
    pub(crate) fn next_line(&mut self) -> Option<(usize, Words<'a>)>
        ensures { MatchOption result (self.old ≡ []) (λ line. self.old ≡ line ∷ self.new) }
    {
        let (number, line, rest) = find_line(self.rest, self.number)?;
        self.rest = rest;
        self.number = number + 1;
        Some((number, Words::of(line)))
    }
}
