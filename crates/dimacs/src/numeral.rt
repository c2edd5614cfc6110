//! The digits of variables, kept from clause to clause.

ghost use Rattle.std.specs.Prelude.{◌≡◌, ℕ, ◌+◌, ◌++◌, ◌≤◌, take, get_or, codes, decimal, IfSome};

use itoa::Buffer;

/// The bytes of a numeral: digits, a space, bytes that do not count, and last how many do. So all
/// are copied in one move.
pub(crate) const NUMERAL_BYTES: usize = 8;

/// No greater variable is kept: its digits would not fit.
const MAX_KEPT: u32 = 999_999;

/// How many numerals are kept.
const KEPT: usize = 4096;

/// The digits of a variable, and a space behind them.
#[derive(Clone, Copy)]
pub(crate) struct Numeral {
    /// The variable behind this one, or 0 where nothing is kept.
    next: u32,
    bytes: [u8; NUMERAL_BYTES],
    ghost short: { get_or bytes 7 0 ≤ 7 },
    ghost right: { (variable : ℕ) → next ≡ variable + 1 →
        take (get_or bytes 7 0) bytes ≡ decimal variable ++ codes " " },
}

impl Numeral {
    /// The numeral of a variable, if that is not above 999,999.
    #[inline(never)]
    fn of(variable: u32) -> Option<Numeral>
        ensures { IfSome result (λ n. n.next ≡ variable + 1) }
    {
        if variable > MAX_KEPT {
            return None;
        }
        let mut buffer = Buffer::new();
        let digits = buffer.format(variable).as_bytes();
        let mut bytes = [b' '; NUMERAL_BYTES];
        bytes[..digits.len()].copy_from_slice(digits);
        bytes[NUMERAL_BYTES - 1] = digits.len() as u8 + 1;
        Some(Numeral {
            next: variable + 1,
            bytes,
        })
    }

    /// How many bytes count.
    #[inline(always)]
    pub(crate) fn len(&self) -> usize
        ensures { result ≡ get_or self.now.bytes 7 0 }
    {
        usize::from(self.bytes[NUMERAL_BYTES - 1])
    }

    /// The bytes that count, and others behind them.
    #[inline(always)]
    pub(crate) fn bytes(&self) -> &[u8; NUMERAL_BYTES]
        ensures { result.now ≡ self.now.bytes }
    {
        &self.bytes
    }
}

/// Numerals that were made before, each at the place that its variable has in a table that repeats.
/// With 12 bytes for each it takes 48 KiB of the stack.
#[derive(Drop)]
pub(crate) struct Numerals {
    numerals: [Numeral; KEPT],
}

impl Numerals {
    /// No numeral. All bytes are 0, which lets the compiler make the table where it is to stand,
    /// and not copy it there.
    #[inline(always)]
    pub(crate) fn new() -> Numerals {
        let nothing = Numeral {
            next: 0,
            bytes: [0; NUMERAL_BYTES],
        };
        Numerals {
            numerals: [nothing; KEPT],
        }
    }

    /// The numeral of a variable, which is made where it is not kept. A variable above 999,999 has
    /// none.
    #[inline(always)]
    pub(crate) fn numeral(&mut self, variable: u32) -> Option<&Numeral>
        ensures { IfSome result (λ n. n.now.next ≡ variable + 1) }
    {
        let numeral = &mut self.numerals[variable as usize % KEPT];
        if u64::from(numeral.next) != u64::from(variable) + 1 {
            *numeral = Numeral::of(variable)?;
        }
        Some(numeral)
    }
}
