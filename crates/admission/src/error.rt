//! Why a presented capability is not admitted.
ghost use Rattle.admission.specs.Denials.{denial_at};
ghost use Rattle.std.specs.Prelude.{◌≡◌};

use refusal::{Layer, Refusal};
use thiserror::Error;

/// The reason why a presented capability is not admitted.
#[derive(Clone, Copy, PartialEq, Eq, Hash, Debug, Error)]
pub enum Denial {
    #[error("the capability is for another port")]
    WrongPort,
    #[error("no live object has the number in the capability")]
    NoSuchObject,
    #[error("the check is not the genuine one for the rights")]
    WrongCheck,
    #[error("the capability lacks the right that the request needs")]
    RightMissing,
    #[error("the object is not of the kind that the request needs")]
    WrongKind,
}

impl Denial {
    /// The denial as a plain value, told at a place.
    pub fn at(self, place: u8) -> Refusal
        ensures { result ≡ denial_at self place }
    {
        let number = match self {
            Denial::WrongPort => 10,
            Denial::NoSuchObject => 11,
            Denial::WrongCheck => 12,
            Denial::RightMissing => 13,
            Denial::WrongKind => 14,
        };
        Refusal {
            number,
            layer: Layer::Store,
            place,
        }
    }
}
