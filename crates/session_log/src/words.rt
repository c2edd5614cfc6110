//! Numbers and lines of a text.

ghost use Rattle.std.specs.Prelude.{◌≡◌, ◌^◌, ◌<◌, ◌==◌, ◌∷◌, ◌++◌, true, nat_lt, length, position};
ghost use Rattle.std.specs.Prelude.{Some, None, if◌then◌else◌};
ghost use Rattle.std.specs.List.{list_all};
ghost use Rattle.std.specs.Char.{is_ascii_digit};
ghost use Rattle.std.specs.Str.Parse.{digits_value};
ghost use Rattle.session_log.specs.Lines.{lines, bytes_of, is_numeral, number_of};

/// Whether each byte is a decimal digit.
pub fn all_digits(word: &[u8]) -> bool
    ensures { result ≡ list_all is_ascii_digit word.now }
{
    word.iter().all(|b| b.is_ascii_digit())
}

/// Whether the word is a decimal number with no leading zero.
pub fn is_numeral(word: &[u8]) -> bool
    ensures { result ≡ is_numeral word.now }
{
    all_digits(word) && !word.is_empty() && (word.len() == 1 || word[0] != b'0')
}

/// The number that digits write, where it is below 2^64.
pub fn value_of(word: &[u8]) -> Option<u64>
    requires { list_all is_ascii_digit word.now ≡ true }
    ensures { let value = digits_value 10 word.now in
        result ≡ (if nat_lt value (2 ^ 64) then Some value else None) }
{
    let mut n: u64 = 0;
    for d in word {
        let digit = u64::from(*d - b'0');
        if n > (u64::MAX - digit) / 10 {
            return None;
        }
        n = n * 10 + digit;
    }
    Some(n)
}

/// The number that the word writes with no leading zero, where it is below 2^64.
#[tactic(auto, unfolding(crate::specs::Lines::number_of))]
pub fn number_of(word: &[u8]) -> Option<u64>
    ensures { result ≡ number_of word.now }
{
    if is_numeral(word) {
        value_of(word)
    } else {
        None
    }
}

/// The place of the first such byte.
pub fn index_of(bytes: &[u8], byte: u8) -> Option<usize>
    ensures { result ≡ position (λ b. b == byte) bytes.now }
{
    bytes.iter().position(|b| *b == byte)
}

/// The first line of a text without its LF, whether it has one, and the text after it.
pub fn next_line(text: &[u8]) -> (&[u8], bool, &[u8])
    requires { 0 < length text.now }
    ensures line { lines text.now ≡ (result.0.now, result.1) ∷ lines result.2.now }
    ensures text { text.now ≡ bytes_of (result.0.now, result.1) ++ result.2.now }
    ensures shorter { length result.2.now < length text.now }
{
    match index_of(text, b'\n') {
        Some(i) => (&text[..i], true, &text[i + 1..]),
        None => (text, false, &[]),
    }
}
