//! Secrets that a store takes, the numbers of its objects, and owner capabilities made of both.
ghost use Rattle.refusal.specs.Chains.{unless};
ghost use Rattle.secret.specs.Fitness.{is_fit};
ghost use Rattle.std.specs.Prelude.{◌≡◌, ◌^◌, ◌<◌, true, Ok};
ghost use Rattle.store.specs.Kept.{directory_number, file_number, grant_of, number_of};
ghost use Rattle.store.specs.State.{kept_of};
ghost use Rattle.store.specs.declared.error.StoreRefusal.TheVariants.{UnfitSecret};

use crate::error::StoreRefusal;
use crate::store::Store;
use admission::Target;
use family::CommutingFamily;
use holder::{Capability, Object};
use secret::{SETS, Secret, is_fit};

/// Refused unless the secret is fit.
///
/// The numbers are room to work in, and of no use afterwards.
pub(crate) fn check_fit<F: CommutingFamily>(
    family: &F,
    secret: Secret,
    numbers: &mut [u64; SETS],
) -> Result<(), StoreRefusal>
    ensures { result ≡ unless (is_fit (F.meaning family.now) secret.value) UnfitSecret (Ok tt) }
{
    if is_fit(family, secret, numbers) != Some(true) {
        return Err(StoreRefusal::UnfitSecret);
    }
    Ok(())
}

/// The number of the file at a place; number 0 is the store's own.
pub(crate) fn file_number(place: usize) -> u64
    requires { file_number place < 2 ^ 24 }
    ensures { result ≡ file_number place }
{
    1 + place as u64
}

impl<F: CommutingFamily> Store<F> {
    /// The number of the directory at a place: directories come after the files.
    pub(crate) fn directory_number(&self, place: usize) -> u64
        requires { directory_number (kept_of F.meaning self.now) place < 2 ^ 24 }
        ensures { result ≡ directory_number (kept_of F.meaning self.now) place }
    {
        1 + self.files.size as u64 + place as u64
    }

    /// The number of an object.
    pub(crate) fn number_of(&self, target: Target) -> u64
        requires { number_of (kept_of F.meaning self.now) target < 2 ^ 24 }
        ensures { result ≡ number_of (kept_of F.meaning self.now) target }
    {
        match target {
            Target::Itself => 0,
            Target::File(place, _) => file_number(place),
            Target::Directory(place, _) => self.directory_number(place),
        }
    }

    /// The owner capability of the object with a number, from a fit secret.
    pub(crate) fn grant(&self, number: u64, secret: Secret) -> Capability
        requires narrow { number < 2 ^ 24 }
        requires fit { is_fit (F.meaning self.now.gate.family) secret.value ≡ true }
        ensures { result ≡ grant_of (kept_of F.meaning self.now) number secret }
    {
        let object = Object::new(number).unwrap();
        secret.owner(self.gate.port, object).unwrap()
    }
}
