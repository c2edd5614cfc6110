//! Sets of numbers as bits, in words of 64.

ghost use Rattle.std.specs.Prelude.{◌≡◌, ℕ, ◌+◌, ◌*◌, ◌/◌, ◌^◌, ◌<◌, ◌≤◌, ◌==◌, ◌&&◌, ◌||◌, true};
ghost use Rattle.std.specs.Prelude.{false, not, length, IsTrue, IfSome, IfNone};
ghost use Rattle.known_graph.specs.Bits.{bit_of, row_len};

use serializability::MAX_NODES;

/// How many words hold a bit for each node that there can be.
pub const NODE_WORDS: usize = MAX_NODES / 64 + 1;

/// A bit for each of nodes 0 to 1,000.
pub type NodeBits = [u64; NODE_WORDS];

/// How many words hold a bit for each of nodes 0 to n.
pub fn row_len(nodes: usize) -> usize
    ensures value { result ≡ row_len nodes }
    ensures few { result ≤ nodes + 1 }
{
    nodes / 64 + 1
}

/// Whether the bit of this number is set; past the last word there is none.
pub fn has_bit(words: &[u64], number: usize) -> bool
    ensures value { result ≡ bit_of words.now number }
{
    match words.get(number / 64) {
        Some(word) => *word >> (number % 64) & 1 == 1,
        None => false,
    }
}

/// Sets the bit of this number.
pub fn set_bit(words: &mut [u64], number: usize)
    requires within { number / 64 < length words.old }
    ensures bits { (k : ℕ) → bit_of words.new k ≡ ((k == number) || bit_of words.old k) }
    ensures len { length words.new ≡ length words.old }
{
    words[number / 64] |= 1 << (number % 64);
}

/// Sets the bits that are set in other words, of which there are at most as many.
pub fn join_words(words: &mut [u64], more: &[u64])
    requires len { length more.now ≤ length words.old }
    ensures bits { (k : ℕ) → bit_of words.new k ≡ (bit_of words.old k || bit_of more.now k) }
    ensures len { length words.new ≡ length words.old }
{
    for i in 0..more.len() {
        words[i] |= more[i];
    }
}

/// Sets the bits of one row in another, where rows of `len` words lie one behind the other.
pub(crate) fn join_row(words: &mut [u64], len: usize, to: usize, from: usize)
    requires to { to * len + len ≤ length words.old }
    requires from { from * len + len ≤ length words.old }
    ensures bits { (u v : ℕ) → v < len * 64 → bit_of words.new (u * (len * 64) + v)
        ≡ (bit_of words.old (u * (len * 64) + v)
        || ((u == to) && bit_of words.old (from * (len * 64) + v))) }
    ensures len { length words.new ≡ length words.old }
{
    for i in 0..len {
        words[to * len + i] |= words[from * len + i];
    }
}

/// A number whose bit is set in the first words and not in others, at least as many, where there is
/// one.
pub fn first_open(words: &[u64], done: &[u64]) -> Option<usize>
    requires len { length words.now ≤ length done.now }
    requires few { length words.now < 2 ^ 32 }
    ensures found { IfSome result (λ k. (bit_of words.now k ≡ true) × (bit_of done.now k ≡ false)) }
    ensures none { IfNone result ((k : ℕ) → bit_of words.now k ≡ true → bit_of done.now k ≡ true) }
{
    for i in 0..words.len() {
        let open = words[i] & !done[i];
        if open != 0 {
            return Some(i * 64 + open.trailing_zeros() as usize);
        }
    }
    None
}

/// Whether each bit that is set in the first words is set in others, at least as many.
pub fn is_within(words: &[u64], all: &[u64]) -> bool
    requires len { length words.now ≤ length all.now }
    requires few { length words.now < 2 ^ 32 }
    ensures within { IsTrue result → (k : ℕ) → bit_of words.now k ≡ true → bit_of all.now k ≡ true }
    ensures outside { IsTrue (not result) → (k : ℕ) × (bit_of words.now k ≡ true)
        × (bit_of all.now k ≡ false) }
{
    first_open(words, all).is_none()
}
