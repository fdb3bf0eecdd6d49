//! Bytes as hexadecimal digits in small letters, two digits to a byte, the high one first.
ghost use Rattle.std.specs.Char.{is_ascii_uppercase};
ghost use Rattle.std.specs.List.{list_any};
ghost use Rattle.std.specs.Prelude.{◌≡◌, ℕ, ◌*◌, List, [], ◌∷◌, false, length, Some};
ghost use Rattle.std.specs.Fmt.{WritesOnOk};
ghost use Rattle.text.specs.Hex.{hex_text, read_hex};
ghost use Rattle.text.specs.Put.{buffer_after, end_of};

use std::fmt;

/// The `N` bytes that a word without capitals stands for. The kit would take capitals.
fn decode<const N: usize>(word: &[u8]) -> Option<[u8; N]>
    requires { list_any is_ascii_uppercase word.now ≡ false }
    ensures { result ≡ read_hex N word.now }
{
    let mut bytes = [0; N];
    hex::decode_to_slice(word, &mut bytes).ok()?;
    Some(bytes)
}

/// The `N` bytes that exactly `2 * N` small hexadecimal digits stand for. Any other word is None.
pub fn read_hex<const N: usize>(word: &[u8]) -> Option<[u8; N]>
    ensures bytes { result ≡ read_hex N word.now }
    ensures same_word { (bytes : List ℕ) → result ≡ Some bytes → hex_text bytes ≡ word.now }
{
    // The length comes first, so a long word is refused without a look at its digits.
    if word.len() / 2 != N || word.iter().any(u8::is_ascii_uppercase) {
        return None;
    }
    decode::<N>(word)
}

/// Writes the digits of the bytes over a part that has room for just these.
fn encode(bytes: &[u8], part: &mut [u8])
    requires { length part.old ≡ 2 * length bytes.now }
    ensures { part.new ≡ hex_text bytes.now }
{
    // It fails only where the part has another length than the digits.
    hex::encode_to_slice(bytes, part).unwrap();
}

/// Writes two small hexadecimal digits for each byte, as `put` writes bytes.
///
/// It does not use `Display`, which promises nothing of when a write fails.
pub fn put_hex(out: &mut [u8], at: usize, bytes: &[u8]) -> Option<usize>
    ensures end { result ≡ end_of out.old at (hex_text bytes.now) }
    ensures buffer { out.new ≡ buffer_after out.old at (hex_text bytes.now) }
    ensures read_again { read_hex (length bytes.now) (hex_text bytes.now) ≡ Some bytes.now }
{
    let end = at
        .checked_add(2 * bytes.len())
        .filter(|end| *end <= out.len())?;
    encode(bytes, &mut out[at..end]);
    Some(end)
}

/// Bytes, shown as `put_hex` writes them.
#[derive(Clone, Copy)]
pub struct Hex<'a> {
    pub bytes: &'a [u8],
}

/// Writes the two digits of a byte. As a function of its own, it knows that a parameter is below
/// 256.
fn show_byte<W: fmt::Write>(b: u8, f: &mut fmt::Formatter<W>) -> fmt::Result
    ensures { WritesOnOk W.write_str_gives f.old result (hex_text (b ∷ [])) f.new }
{
    write!(f, "{b:02x}")
}

impl fmt::Display for Hex<'_> {
    ghost output = { λ x. Some (hex_text x.bytes.now) };

    fn fmt<W: fmt::Write>(&self, f: &mut fmt::Formatter<W>) -> fmt::Result {
        for b in self.bytes {
            show_byte(*b, f)?;
        }
        Ok(())
    }
}
