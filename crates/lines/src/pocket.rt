//! Pockets, and the words that name them.
ghost use Rattle.std.specs.Prelude.{◌≡◌};
ghost use Rattle.lines.specs.Words.{read_pocket};

use crate::word::Word;

/// A pocket that a word names: its place among all 64, and the number of the word.
#[derive(Clone, Copy, PartialEq, Eq, Debug)]
pub struct Pocket {
    /// Eight times the holder, 0 for A, and the pocket's digit.
    pub index: u8,
    pub number: u8,
}

/// The pocket of a holder A to H and a digit 0 to 7.
pub(crate) fn read_pocket(word: Word) -> Option<Pocket>
    ensures pocket { result ≡ read_pocket word.entry.number word.entry.bytes.now }
{
    match *word.bytes {
        [holder @ b'A'..=b'H', digit @ b'0'..=b'7'] => Some(Pocket {
            index: 8 * (holder - b'A') + (digit - b'0'),
            number: word.number,
        }),
        _ => None,
    }
}
