//! A secret, and the one way out of it: the check of an owner capability.
ghost use Rattle.family.specs.Rights.{has_right, lacks_right};
ghost use Rattle.family.specs.Thin.{thin};
ghost use Rattle.secret.specs.Accepted.{is_accepted, is_match, is_plausible};
ghost use Rattle.secret.specs.Owner.{owner_of};
ghost use Rattle.std.specs.Prelude.{◌≡◌, ◌-◌, ◌<◌, ◌==◌, nat_lt};

use family::{CommutingFamily, thin_number};
use holder::{Capability, Check, Object, Port, Rights};

/// The number that all checks of one object come from. It can be neither printed nor read back.
#[derive(Clone, Copy, PartialEq, Eq)]
pub struct Secret {
    pub(crate) value: u64,
}

/// Whether a number can be a check at all: the functions of a family stay below its modulus.
fn is_plausible<F: CommutingFamily>(family: &F, v: u64) -> bool
    ensures { result ≡ is_plausible (F.meaning family.now).modulus v }
{
    v < family.modulus()
}

/// Whether v is plausible, and s thinned by every right outside the byte.
fn matches<F: CommutingFamily>(family: &F, s: u64, byte: u8, v: u64) -> bool
    ensures { result ≡ is_match (F.meaning family.now) s (has_right (255 - byte)) v }
{
    is_plausible(family, v) && v == thin_number(family, s, !byte)
}

impl Secret {
    /// The secret of any number. A call that needs a fit secret refuses an unfit one.
    pub fn new(n: u64) -> Secret
        ensures { result.value ≡ n }
    {
        Secret { value: n }
    }

    /// Whether the secret is below the modulus of the family.
    pub fn below<F: CommutingFamily>(self, family: &F) -> bool
        ensures { result ≡ nat_lt self.value (F.meaning family.now).modulus }
    {
        self.value < family.modulus()
    }

    /// The owner capability: all rights, and the secret as the check.
    ///
    /// None where the secret has more than 48 bits.
    pub fn owner(self, port: Port, object: Object) -> Option<Capability>
        ensures { result ≡ owner_of port object self.value }
    {
        let check = Check::new(self.value)?;
        Some(Capability {
            port,
            object,
            rights: Rights { bits: 255 },
            check,
        })
    }

    /// Whether the check is the secret thinned by the missing rights.
    pub fn accepts<F: CommutingFamily>(self, family: &F, rights: Rights, check: Check) -> bool
        ensures value { result ≡ is_accepted (F.meaning family.now) self.value rights.bits
            check.value }
        ensures plain { self.value < (F.meaning family.now).modulus
            → result
            ≡ (check.value == thin (F.meaning family.now).function self.value
            (lacks_right rights.bits)) }
    {
        matches(family, self.value, rights.bits, check.number())
    }
}
