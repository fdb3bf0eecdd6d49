//! Single words of a line, each read by itself.
ghost use Rattle.std.specs.Prelude.{◌≡◌, option_map};
ghost use Rattle.lines.specs.Words.{numbered_word, read_byte, read_letter, read_text};

use text::read_hex;

/// A word of a line, with its number, counted from 1.
#[derive(Clone, Copy, PartialEq, Eq, Debug)]
pub struct Word<'l> {
    pub bytes: &'l [u8],
    pub number: u8,
}

/// The byte that exactly two small hexadecimal digits stand for.
pub(crate) fn read_byte(word: Word) -> Option<u8>
    ensures byte { result ≡ read_byte word.entry.bytes.now }
{
    let [byte] = read_hex::<1>(word.bytes)?;
    Some(byte)
}

/// The letter that stands alone in a word.
pub(crate) fn read_letter(word: Word) -> Option<char>
    ensures letter { result ≡ read_letter word.entry.bytes.now }
{
    match *word.bytes {
        [letter] => Some(char::from(letter)),
        _ => None,
    }
}

/// The word itself, if it has any bytes.
pub(crate) fn read_text(word: Word<'_>) -> Option<Word<'_>>
    ensures text { option_map numbered_word result
        ≡ read_text word.entry.number word.entry.bytes.now }
{
    (!word.bytes.is_empty()).then_some(word)
}
