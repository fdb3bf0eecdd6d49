//! Why a family is not made.
ghost use Rattle.family.specs.Refusals.{family_refusal};
ghost use Rattle.std.specs.Prelude.{◌≡◌};

use refusal::{Layer, Refusal};
use thiserror::Error;

/// The reason why a family is not made.
#[derive(Clone, Copy, PartialEq, Eq, Hash, Debug, Error)]
pub enum FamilyRefusal {
    #[error("the modulus is not from 3 to 2,147,483,647")]
    ModulusOutOfRange,
}

impl From<FamilyRefusal> for Refusal {
    ghost from_gives = { λ e r. r ≡ family_refusal e };

    fn from(e: FamilyRefusal) -> Refusal {
        match e {
            FamilyRefusal::ModulusOutOfRange => Refusal {
                number: 4,
                layer: Layer::Family,
                place: 0,
            },
        }
    }
}
