//! Why a store refuses.
ghost use Rattle.std.specs.Prelude.{◌≡◌};
ghost use Rattle.store.specs.Errors.{by_store, by_store_at, store_refusal};
ghost use Rattle.store.specs.declared.error.StoreRefusal.TheVariants.{Denied};

use admission::Denial;
use refusal::{Layer, Refusal};
use thiserror::Error;

/// Why a store refuses a request.
#[derive(Clone, Copy, PartialEq, Eq, Hash, Debug, Error)]
pub enum StoreRefusal {
    /// Memory or scratch has not the size that it must have.
    #[error("memory or scratch has a wrong size")]
    WrongSizes,
    /// Memory is not sound.
    #[error("the memory is not sound")]
    UnsoundMemory,
    /// The secret is not fit, or is the one that the object has already.
    #[error("the secret is not fit, or is the present one")]
    UnfitSecret,
    /// A name is not lawful.
    #[error("the name is not lawful")]
    BadName,
    /// A path has no name, more than sixteen, or one that is not lawful.
    #[error("the path is not lawful")]
    BadPath,
    /// The capability presented is not admitted. In a walk, the number of the name.
    #[error("the capability is not admitted: {0}")]
    Denied(Denial, u8),
    /// Every record of the table is live.
    #[error("every record of the table is live")]
    NoFreeRecord,
    /// No start in the area has room for the file.
    #[error("the area has no room for the file")]
    NoStart,
    /// The capability to be entered is not accepted now.
    #[error("the capability to be entered is not accepted")]
    EntryNotAccepted,
    /// The directory has a row of that name.
    #[error("the directory has a row of that name")]
    NameTaken,
    /// The directory has sixteen rows already.
    #[error("the directory has sixteen rows")]
    DirectoryFull,
    /// No row matches. In a walk, the number of the name.
    #[error("no row matches")]
    NoSuchRow(u8),
    /// The row's capability is not accepted now. In a walk, the number of the name.
    #[error("the capability of the row is not accepted")]
    RowNotAccepted(u8),
    /// The directory has rows.
    #[error("the directory has rows")]
    RowsLeft,
}

impl From<Denial> for StoreRefusal {
    ghost from_gives = { λ e r. r ≡ Denied e 0 };

    fn from(e: Denial) -> StoreRefusal {
        StoreRefusal::Denied(e, 0)
    }
}

/// A refusal of the store at the number of a name in a walk, or at 0.
fn by_store_at(number: u8, place: u8) -> Refusal
    ensures { result ≡ by_store_at number place }
{
    Refusal {
        number,
        layer: Layer::Store,
        place,
    }
}

/// A refusal of the store that has no place.
fn by_store(number: u8) -> Refusal
    ensures { result ≡ by_store number }
{
    by_store_at(number, 0)
}

impl From<StoreRefusal> for Refusal {
    ghost from_gives = { λ e r. r ≡ store_refusal e };

    fn from(e: StoreRefusal) -> Refusal {
        match e {
            StoreRefusal::WrongSizes => by_store(1),
            StoreRefusal::UnsoundMemory => by_store(2),
            StoreRefusal::UnfitSecret => by_store(3),
            StoreRefusal::BadName => by_store(6),
            StoreRefusal::BadPath => by_store(7),
            StoreRefusal::Denied(denial, place) => denial.at(place),
            StoreRefusal::NoFreeRecord => by_store(20),
            StoreRefusal::NoStart => by_store(21),
            StoreRefusal::EntryNotAccepted => by_store(22),
            StoreRefusal::NameTaken => by_store(23),
            StoreRefusal::DirectoryFull => by_store(24),
            StoreRefusal::NoSuchRow(place) => by_store_at(25, place),
            StoreRefusal::RowNotAccepted(place) => by_store_at(26, place),
            StoreRefusal::RowsLeft => by_store(27),
        }
    }
}
