//! Numbers as decimal digits, with no needless zero in front.
ghost use Rattle.std.specs.Prelude.{◌≡◌, ℕ, ◌^◌, ◌<◌, Some, decimal};
ghost use Rattle.text.specs.Decimal.{read_decimal};
ghost use Rattle.text.specs.Put.{buffer_after, end_of};

use crate::bytes::put;
use itoa::Buffer;
use std::str;

/// The most digits of a decimal that is read: each such number fits 64 bits with room to spare.
const MOST_READ: usize = 15;

/// The number of a decimal of 1 to 15 digits, with no needless zero in front. Any other word is
/// None.
pub fn read_decimal(word: &[u8]) -> Option<u64>
    ensures number { result ≡ read_decimal word.now }
    ensures same_word { (n : ℕ) → result ≡ Some n → decimal n ≡ word.now }
{
    match word {
        // `parse` would take these two.
        [b'+', ..] | [b'0', _, ..] => None,
        _ if word.len() > MOST_READ => None,
        _ => str::from_utf8(word).ok()?.parse().ok(),
    }
}

/// Writes the decimal of `n`, as `put` writes bytes.
pub fn put_decimal(out: &mut [u8], at: usize, n: u64) -> Option<usize>
    ensures end { result ≡ end_of out.old at (decimal n) }
    ensures buffer { out.new ≡ buffer_after out.old at (decimal n) }
    ensures read_again { n < 10 ^ 15 → read_decimal (decimal n) ≡ Some n }
{
    let mut digits = Buffer::new();
    put(out, at, digits.format(n).as_bytes())
}
