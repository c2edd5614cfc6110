//! Sets of numbers as bits, in words of 64.

ghost use Rattle.std.specs.Prelude.{◌≡◌, ℕ, ◌+◌, ◌/◌, ◌^◌, ◌<◌, ◌==◌, ◌&&◌, not, nat_lt};
ghost use Rattle.std.specs.Prelude.{length, IfSome, IfNone};
ghost use Rattle.known_graph.specs.Bits.{bit_of, row_len};
ghost use Rattle.branching.specs.Bits.{IsNext, NoneFrom};

/// The least number from a number on whose bit is set.
pub fn next_set(words: &[u64], from: usize) -> Option<usize>
    requires short { length words.now < 2 ^ 32 }
    ensures next { IfSome result (IsNext words.now from) }
    ensures none { IfNone result (NoneFrom words.now from) }
{
    let start = from / 64;
    if start >= words.len() {
        return None;
    }
    let word = words[start] & (u64::MAX << (from % 64));
    if word != 0 {
        return Some(start * 64 + word.trailing_zeros() as usize);
    }
    for index in start + 1..words.len() {
        if words[index] != 0 {
            return Some(index * 64 + words[index].trailing_zeros() as usize);
        }
    }
    None
}

/// Clears the bit of this number.
pub fn clear_bit(words: &mut [u64], number: usize)
    requires within { number / 64 < length words.old }
    ensures bits { (k : ℕ) → bit_of words.new k ≡ (not (k == number) && bit_of words.old k) }
    ensures len { length words.new ≡ length words.old }
{
    words[number / 64] &= !(1 << (number % 64));
}

/// Sets the bits of the numbers below this one, and clears the others.
pub fn set_below(words: &mut [u64], count: usize)
    requires len { length words.old ≡ row_len count }
    ensures bits { (k : ℕ) → bit_of words.new k ≡ nat_lt k count }
    ensures len { length words.new ≡ length words.old }
{
    let last = count / 64;
    for index in 0..last {
        words[index] = u64::MAX;
    }
    words[last] = (1 << (count % 64)) - 1;
}
