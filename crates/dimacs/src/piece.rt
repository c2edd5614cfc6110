//! Bytes on their way to a sink, gathered so that a few large pieces go out.

ghost use Rattle.std.specs.Prelude.{◌≡◌, ◌+◌, ◌≤◌, ◌↔◌, [], ◌++◌, length, get_or, take, codes};
ghost use Rattle.std.specs.Prelude.{IsTrue, if◌then◌else◌, decimal};
ghost use Rattle.order_cnf.specs.Clauses.{literals};
ghost use Rattle.dimacs.specs.Text.{literal_text, clause_text, header};

use crate::numeral::{NUMERAL_BYTES, Numeral, Numerals};
use itoa::{Buffer, Integer};
use order_cnf::Clause;
use serializability::Literal;
use std::marker::Model;

/// How many bytes can wait.
const CAPACITY: usize = 16384;

/// No line of a clause is longer.
const MAX_CLAUSE_BYTES: usize = 64;

/// Bytes that wait to go out.
#[derive(Drop)]
pub(crate) struct Piece {
    bytes: [u8; CAPACITY],
    len: usize,
}

impl Model for Piece {
    ghost use Rattle.std.specs.Prelude.{ℕ, ◌≤◌, List, take};

    ghost Value = { List ℕ };

    ghost view = { λ p. take p.len p.bytes };

    ghost invariant = { λ p. p.len ≤ 16384 };
}

impl Piece {
    /// A piece with no bytes.
    pub(crate) fn new() -> Piece
        ensures { result ≡ [] }
    {
        Piece {
            bytes: [0; CAPACITY],
            len: 0,
        }
    }

    /// The bytes.
    pub(crate) fn as_slice(&self) -> &[u8]
        ensures value { result.now ≡ self.now }
        ensures bound { length self.now ≤ 16384 }
    {
        &self.bytes[..self.len]
    }

    /// Whether a clause still fits.
    #[inline]
    pub(crate) fn has_room(&self) -> bool
        ensures { IsTrue result ↔ (length self.now + 64 ≤ 16384) }
    {
        self.len <= CAPACITY - MAX_CLAUSE_BYTES
    }

    /// Drops the bytes.
    pub(crate) fn clear(&mut self)
        ensures { self.new ≡ [] }
    {
        self.len = 0;
    }

    /// Adds bytes.
    #[inline(always)]
    fn push(&mut self, text: &[u8])
        requires { length self.old + length text.now ≤ 16384 }
        ensures { self.new ≡ self.old ++ text.now }
    {
        let end = self.len + text.len();
        self.bytes[self.len..end].copy_from_slice(text);
        self.len = end;
    }

    /// Adds the digits of a number.
    fn push_number<N: Integer>(&mut self, number: N)
        requires { length self.old + N.MAX_STR_LEN ≤ 16384 }
        ensures text { self.new ≡ self.old ++ N.text number }
        ensures short { length self.new ≤ length self.old + N.MAX_STR_LEN }
    {
        let mut digits = Buffer::new();
        self.push(digits.format(number).as_bytes());
    }

    /// Adds a minus where a literal is negated.
    #[inline(always)]
    fn push_sign(&mut self, positive: bool)
        requires { length self.old + 1 ≤ 16384 }
        ensures { self.new ≡ self.old ++ (if positive then [] else codes "-") }
    {
        self.bytes[self.len] = b'-';
        self.len += usize::from(!positive);
    }

    /// Adds a numeral. Always as many bytes are copied, and those behind the numeral do not count.
    #[inline(always)]
    fn push_numeral(&mut self, numeral: &Numeral)
        requires { length self.old + 8 ≤ 16384 }
        ensures text { self.new
            ≡ self.old ++ take (get_or numeral.now.bytes 7 0) numeral.now.bytes }
        ensures short { length self.new ≤ length self.old + 8 }
    {
        self.bytes[self.len..self.len + NUMERAL_BYTES].copy_from_slice(numeral.bytes());
        self.len += numeral.len();
    }

    /// Adds a variable that is too great to be kept, and a space.
    #[cold]
    #[inline(never)]
    fn push_great(&mut self, variable: u32)
        requires { length self.old + 11 ≤ 16384 }
        ensures text { self.new ≡ self.old ++ (decimal variable ++ codes " ") }
        ensures short { length self.new ≤ length self.old + 11 }
    {
        self.push_number(variable);
        self.push(b" ");
    }

    /// Adds a variable and a space.
    #[inline(always)]
    fn push_variable(&mut self, variable: u32, numerals: &mut Numerals)
        requires { length self.old + 11 ≤ 16384 }
        ensures text { self.new ≡ self.old ++ (decimal variable ++ codes " ") }
        ensures short { length self.new ≤ length self.old + 11 }
    {
        match numerals.numeral(variable) {
            Some(numeral) => self.push_numeral(numeral),
            None => self.push_great(variable),
        }
    }

    /// Adds a literal and a space.
    #[inline(always)]
    fn push_literal(&mut self, literal: Literal, numerals: &mut Numerals)
        requires { length self.old + 12 ≤ 16384 }
        ensures text { self.new ≡ self.old ++ (literal_text literal ++ codes " ") }
        ensures short { length self.new ≤ length self.old + 12 }
    {
        self.push_sign(literal.positive);
        self.push_variable(literal.variable, numerals);
    }

    /// Adds the first line of a text.
    pub(crate) fn push_header(&mut self, variables: usize, clauses: usize)
        requires { length self.old + 100 ≤ 16384 }
        ensures text { self.new ≡ self.old ++ header variables clauses }
        ensures short { length self.new ≤ length self.old + 100 }
    {
        self.push(b"p cnf ");
        self.push_number(variables);
        self.push(b" ");
        self.push_number(clauses);
        self.push(b"\n");
    }

    /// Adds the line of a clause.
    #[inline(always)]
    pub(crate) fn push_clause(&mut self, clause: Clause, numerals: &mut Numerals)
        requires { length self.old + 64 ≤ 16384 }
        ensures text { self.new ≡ self.old ++ clause_text (literals clause) }
        ensures short { length self.new ≤ length self.old + 64 }
    {
        match clause {
            Clause::Unit(a) => self.push_literal(a, numerals),
            Clause::Pair(a, b) => {
                self.push_literal(a, numerals);
                self.push_literal(b, numerals);
            }
            Clause::Triple(a, b, c) => {
                self.push_literal(a, numerals);
                self.push_literal(b, numerals);
                self.push_literal(c, numerals);
            }
        }
        self.push(b"0\n");
    }
}
