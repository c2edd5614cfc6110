//! Numbers, and what they stand for.

ghost use Rattle.std.specs.Prelude.{◌≡◌, ◌≤◌, true, length};
ghost use Rattle.std.specs.List.{list_all};
ghost use Rattle.std.specs.Char.{is_ascii_digit};
ghost use Rattle.std.specs.Str.Parse.{digits_value};
ghost use Rattle.proof_text.specs.Numbers.{is_decimal, size_of, below_zero, not_below_zero};
ghost use Rattle.proof_text.specs.Numbers.{number_of, literal_of, id_of};

use serializability::Literal;
use session_log::all_digits;

/// A number as it is written, without its sign.
#[derive(Clone, Copy, PartialEq, Eq)]
pub(crate) struct Number {
    pub(crate) size: u64,
    pub(crate) negative: bool,
}

/// The most digits that a number may have.
const MAX_DIGITS: usize = 18;

/// Whether a word is of digits, as many as a number may have.
fn is_decimal(word: &[u8]) -> bool
    ensures { result ≡ is_decimal word.now }
{
    !word.is_empty() && word.len() <= MAX_DIGITS && all_digits(word)
}

/// What digits write.
#[tactic(auto, using(session_log::proofs::Digits::value_more, crate::proofs::Digits::value_small))]
fn value_of(word: &[u8]) -> u64
    requires digits { list_all is_ascii_digit word.now ≡ true }
    requires short { length word.now ≤ 18 }
    ensures { result ≡ digits_value 10 word.now }
{
    let mut n: u64 = 0;
    for d in word {
        n = n * 10 + u64::from(*d - b'0');
    }
    n
}

/// What a word of digits writes.
#[tactic(auto, unfolding(crate::specs::Numbers::size_of))]
fn size_of(word: &[u8]) -> Option<u64>
    ensures { result ≡ size_of word.now }
{
    is_decimal(word).then(|| value_of(word))
}

/// The number behind a `-`, which is not 0.
fn below_zero(size: Option<u64>) -> Option<Number>
    ensures { result ≡ below_zero size }
{
    match size? {
        0 => None,
        size => Some(Number {
            size,
            negative: true,
        }),
    }
}

/// The number without a `-`.
fn not_below_zero(size: Option<u64>) -> Option<Number>
    ensures { result ≡ not_below_zero size }
{
    Some(Number {
        size: size?,
        negative: false,
    })
}

/// The number that a word writes.
#[tactic(auto, unfolding(crate::specs::Numbers::number_of))]
pub(crate) fn number_of(word: &[u8]) -> Option<Number>
    ensures { result ≡ number_of word.now }
{
    let (first, rest) = word.split_first()?;
    if *first == b'-' {
        below_zero(size_of(rest))
    } else {
        not_below_zero(size_of(word))
    }
}

/// The literal of a number, where it is of one of the variables 1 to `variables`.
#[tactic(auto, unfolding(crate::specs::Numbers::literal_of))]
pub(crate) fn literal_of(number: Number, variables: u32) -> Option<Literal>
    ensures { result ≡ literal_of variables number }
{
    if 0 < number.size && number.size <= u64::from(variables) {
        Some(Literal {
            variable: number.size as u32,
            positive: !number.negative,
        })
    } else {
        None
    }
}

/// The ID that a number is. Only that of a hint may be below 0, and is none.
#[tactic(auto, unfolding(crate::specs::Numbers::id_of))]
pub(crate) fn id_of(number: Number, is_hint: bool) -> Option<Option<u64>>
    ensures { result ≡ id_of is_hint number }
{
    if number.negative {
        if is_hint { Some(None) } else { None }
    } else {
        Some(Some(number.size))
    }
}
