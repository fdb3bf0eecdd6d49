//! Why the holders' part refuses.
ghost use Rattle.holder.specs.Refusals.{holder_refusal};
ghost use Rattle.std.specs.Prelude.{◌≡◌};

use refusal::{Layer, Refusal};
use thiserror::Error;

/// The reason why the holders' part refuses.
#[derive(Clone, Copy, PartialEq, Eq, Hash, Debug, Error)]
pub enum HolderRefusal {
    #[error("a capability has sixteen bytes")]
    WrongLength,
    #[error("the right is not from 0 to 7")]
    NoSuchRight,
    #[error("the check is not below the modulus of the family")]
    CheckTooLarge,
}

impl From<HolderRefusal> for Refusal {
    ghost from_gives = { λ e r. r ≡ holder_refusal e };

    fn from(e: HolderRefusal) -> Refusal {
        let number = match e {
            HolderRefusal::WrongLength => 5,
            HolderRefusal::NoSuchRight => 8,
            HolderRefusal::CheckTooLarge => 9,
        };
        Refusal {
            number,
            layer: Layer::Holder,
            place: 0,
        }
    }
}
