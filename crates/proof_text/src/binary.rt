//! DRAT in its binary form: words of bytes, in lines that end behind a 0.

ghost use Rattle.std.specs.Prelude.{◌≡◌, ◌≤◌, [], ◌∷◌, length, drop, position, nat_lt};
ghost use Rattle.std.specs.Prelude.{MatchOption, IfOk, OnSome};
ghost use Rattle.std.specs.Bool.{OnTrue, then_some};
ghost use Rattle.std.specs.List.{list_any};
ghost use Rattle.proof_text.specs.Binary.{binary_words, is_binary, sevens, signed, binary_number};
ghost use Rattle.proof_text.specs.Binary.{binary_numbers, up_to_zero, behind_line};
ghost use Rattle.proof_text.specs.Binary.{action_of_word, binary_action, binary_step};
ghost use Rattle.proof_text.specs.Binary.{binary_lines_of};
ghost use Rattle.proof_text.specs.Numbers.{first_number, before_zero, literal_of};
ghost use Rattle.proof_text.specs.Reads.{IsRead};
ghost use Rattle.proof_text.specs.Steps.{steps_by, drat_with};

use crate::drat::DratAction;
use crate::fault::StepFault;
use crate::number::{Number, literal_of};
use serializability::Literal;
use std::alloc::AllocError;
use std::marker::Model;

/// The most bytes that a number may have.
const MAX_BYTES: usize = 5;

/// The words of bytes that are left.
#[derive(Drop)]
pub(crate) struct BinaryWords<'a> {
    rest: &'a [u8],
}

impl<'a> Model for BinaryWords<'a> {
    ghost use Rattle.std.specs.Prelude.{List, ℕ};

    ghost Value = { List (List ℕ) };

    ghost use Rattle.proof_text.specs.Binary.{binary_words};

    ghost view = { λ w. binary_words w.rest.now };
}

impl<'a> BinaryWords<'a> {
    /// The words of bytes.
    fn of(bytes: &'a [u8]) -> BinaryWords<'a>
        ensures { result ≡ binary_words bytes.now }
    {
        BinaryWords { rest: bytes }
    }

    /// The bytes of the words that are left.
    fn bytes(&self) -> &'a [u8]
        ensures { binary_words result.now ≡ self.now }
    {
        self.rest
    }

    /// Takes the next word.
    fn next_word(&mut self) -> Option<&'a [u8]>
        ensures word { MatchOption result (self.old ≡ []) (λ word. self.old ≡ word.now ∷ self.new) }
        ensures rest { self.new ≡ drop 1 self.old }
    {
        let (word, rest) = cut_word(self.rest)?;
        self.rest = rest;
        Some(word)
    }

    /// Takes the next word, and gives the number that it is.
    fn next_number(&mut self) -> Option<Number>
        ensures number { result ≡ first_number (binary_numbers self.old) }
        ensures rest { self.new ≡ drop 1 self.old }
    {
        binary_number(self.next_word()?)
    }

    /// Takes the next word, and gives what a step does by it.
    fn next_action(&mut self) -> Option<DratAction>
        ensures action { result ≡ binary_action self.old }
        ensures rest { self.new ≡ drop 1 self.old }
    {
        action_of(self.next_word()?)
    }
}

/// The place of the first byte that ends a word.
fn first_last(bytes: &[u8]) -> Option<usize>
    ensures { result ≡ position (λ b. nat_lt b 128) bytes.now }
{
    bytes.iter().position(|b| *b < 128)
}

/// The first word, where there is one, and what stands behind it.
#[tactic(auto, using(crate::proofs::Packing::word_cuts))]
fn cut_word(bytes: &[u8]) -> Option<(&[u8], &[u8])>
    ensures { MatchOption result (binary_words bytes.now ≡ [])
        (λ cut. binary_words bytes.now ≡ cut.0.now ∷ binary_words cut.1.now) }
{
    if bytes.is_empty() {
        return None;
    }
    match first_last(bytes) {
        Some(end) => Some(bytes.split_at(end + 1)),
        None => Some((bytes, &[])),
    }
}

fn has_last(word: &[u8]) -> bool
    ensures { result ≡ list_any (λ b. nat_lt b 128) word.now }
{
    word.iter().any(|b| *b < 128)
}

/// Whether a word has its end, and no more bytes than a number may have.
fn is_binary(word: &[u8]) -> bool
    ensures { result ≡ is_binary word.now }
{
    word.len() <= MAX_BYTES && has_last(word)
}

/// Seven bits a byte, the lowest first.
#[tactic(auto, using(crate::proofs::Packing::sevens_fit), unfolding(crate::specs::Binary::sevens))]
fn sevens(word: &[u8]) -> u64
    requires { length word.now ≤ 5 }
    ensures { result ≡ sevens word.now }
{
    match word.split_first() {
        Some((byte, rest)) => u64::from(*byte % 128) + 128 * sevens(rest),
        None => 0,
    }
}

/// Twice the variable, and one more for its negation.
#[tactic(auto, unfolding(crate::specs::Binary::signed))]
fn signed(number: u64) -> Option<Number>
    ensures { result ≡ signed number }
{
    (number != 1).then_some(Number {
        size: number / 2,
        negative: number % 2 == 1,
    })
}

/// The number of a word.
#[tactic(auto, unfolding(crate::specs::Binary::binary_number))]
fn binary_number(word: &[u8]) -> Option<Number>
    ensures { result ≡ binary_number word.now }
{
    if is_binary(word) {
        signed(sevens(word))
    } else {
        None
    }
}

/// What a step does by its first word.
fn action_of(word: &[u8]) -> Option<DratAction>
    ensures { result ≡ action_of_word word.now }
{
    if word == b"a".as_slice() {
        Some(DratAction::Add)
    } else if word == b"d".as_slice() {
        Some(DratAction::Delete)
    } else {
        None
    }
}

/// Reads the literals up to a 0, which is passed over, and says whether they are such.
#[tactic(auto, using(crate::proofs::Packing::line_steps))]
fn read_literals(
    words: &mut BinaryWords<'_>,
    variables: u32,
    literals: &mut Vec<Literal>,
) -> Result<bool, AllocError>
    ensures read { IfOk result (λ read.
        before_zero (literal_of variables) (binary_numbers words.old) ≡
        then_some read (literals.new.items, binary_numbers words.new)) }
    ensures rest { IfOk result (λ read. OnTrue read (words.new ≡ behind_line words.old)) }
{
    literals.clear();
    while let Some(number) = words.next_number() {
        if number.size == 0 {
            return Ok(true);
        }
        let Some(literal) = literal_of(number, variables) else {
            break;
        };
        literals.push(literal)?;
    }
    Ok(false)
}

/// Reads the step of the first line.
#[tactic(auto, using(crate::proofs::Packing::steps_read))]
fn read_step(
    words: &mut BinaryWords<'_>,
    variables: u32,
    literals: &mut Vec<Literal>,
) -> Result<Option<DratAction>, AllocError>
    ensures step { IfOk result (λ action.
        binary_step variables (up_to_zero words.old) ≡ drat_with action literals.new.items) }
    ensures rest { IfOk result (λ action. OnSome action (words.new ≡ behind_line words.old)) }
{
    match words.next_action() {
        Some(action) => {
            let read = read_literals(words, variables, literals)?;
            Ok(read.then_some(action))
        }
        None => Ok(None),
    }
}

/// The lines of bytes that are left, each with its number.
#[derive(Drop)]
pub(crate) struct BinaryLines<'a> {
    rest: &'a [u8],
    number: usize,
}

impl<'a> Model for BinaryLines<'a> {
    ghost use Rattle.std.specs.Prelude.{List, ℕ};

    ghost Value = { List (ℕ × List (List ℕ)) };

    ghost use Rattle.std.specs.Prelude.{◌+◌, ◌^◌, ◌≤◌, length};
    ghost use Rattle.std.specs.List.{enumerate_from};
    ghost use Rattle.proof_text.specs.Binary.{binary_lines, binary_words};

    ghost view = { λ l. enumerate_from l.number (binary_lines (binary_words l.rest.now)) };

    ghost invariant = { λ l. l.number + length (binary_words l.rest.now) ≤ 2 ^ 63 };
}

impl<'a> BinaryLines<'a> {
    /// The lines of bytes.
    #[tactic(auto, unfolding(crate::specs::Binary::binary_lines_of))]
    pub(crate) fn of(bytes: &'a [u8]) -> BinaryLines<'a>
        ensures { result ≡ binary_lines_of bytes.now }
    {
        BinaryLines {
            rest: bytes,
            number: 1,
        }
    }

    /// Reads the step of the next line.
    #[tactic(auto, using(crate::proofs::Packing::lines_read))]
    pub(crate) fn read(
        &mut self,
        variables: u32,
        literals: &mut Vec<Literal>,
    ) -> Result<Option<(usize, DratAction)>, StepFault>
        ensures { IsRead
            (steps_by (binary_step variables) self.old)
            (steps_by (binary_step variables) self.new)
            (λ action. record {
              action = action;
              literals = literals.new.items;
            }) result }
    {
        if self.rest.is_empty() {
            return Ok(None);
        }
        let mut words = BinaryWords::of(self.rest);
        match read_step(&mut words, variables, literals)? {
            Some(action) => {
                let line = self.number;
                self.rest = words.bytes();
                self.number = line + 1;
                Ok(Some((line, action)))
            }
            None => Err(StepFault::BadLine { line: self.number }),
        }
    }
}
