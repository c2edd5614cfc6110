//! What is wrong with a number.

use session_log::{all_digits, number_of};

/// Why a word is not a number that a log may have.
#[derive(Clone, Copy, Debug, PartialEq, Eq)]
pub enum NumberFault {
    Missing,
    Sign,
    LeadingZero,
    NotDigits,
    TooLarge,
}

/// What is wrong with a number below 2^64, where something is.
pub fn number_fault(word: &[u8]) -> Option<NumberFault> {
    if number_of(word).is_some() {
        return None;
    }
    Some(match word.first() {
        None => NumberFault::Missing,
        Some(b'+' | b'-') => NumberFault::Sign,
        Some(_) if !all_digits(word) => NumberFault::NotDigits,
        Some(b'0') => NumberFault::LeadingZero,
        Some(_) => NumberFault::TooLarge,
    })
}
