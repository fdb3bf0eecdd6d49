//! Why a script refuses a line.
ghost use Rattle.std.specs.Prelude.{◌≡◌};
ghost use Rattle.lines.specs.Refusals.{bad_line, line_refusal};

use refusal::{Layer, Refusal};
use thiserror::Error;

/// The first fault of a line.
#[derive(Clone, Copy, PartialEq, Eq, Hash, Debug)]
pub struct Misread {
    /// The number of the word that is wrong, missing or too many, from 1. It is 0 for the line's
    /// length, bytes or spacing.
    pub place: u8,
}

/// The reason why a script refuses a line.
#[derive(Clone, Copy, PartialEq, Eq, Hash, Debug, Error)]
pub enum LineRefusal {
    #[error("the answer buffer is too short")]
    ShortBuffer,
    /// The place is that of a `Misread`.
    #[error("word {0} of the line is wrong, missing or too many")]
    BadLine(u8),
    /// The number of the word that names the pocket.
    #[error("the pocket of word {0} is empty")]
    EmptyPocket(u8),
}

impl From<Misread> for LineRefusal {
    ghost from_gives = { λ e r. r ≡ bad_line e };

    fn from(misread: Misread) -> LineRefusal {
        LineRefusal::BadLine(misread.place)
    }
}

impl From<LineRefusal> for Refusal {
    ghost from_gives = { λ e r. r ≡ line_refusal e };

    fn from(e: LineRefusal) -> Refusal {
        let (number, place) = match e {
            LineRefusal::ShortBuffer => (32, 0),
            LineRefusal::BadLine(word) => (30, word),
            LineRefusal::EmptyPocket(word) => (31, word),
        };
        Refusal {
            number,
            layer: Layer::Line,
            place,
        }
    }
}
