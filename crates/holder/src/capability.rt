//! A capability, and how its holder gives rights up.
ghost use Rattle.holder.specs.Dropping.{check_number, drop_right, thin_to};
ghost use Rattle.holder.specs.Laws.{AnyOrder, OneByOne, StaysGenuine, TwiceIsOnce};
ghost use Rattle.holder.specs.declared.error.HolderRefusal.TheVariants.{CheckTooLarge};
ghost use Rattle.refusal.specs.Chains.{unless};
ghost use Rattle.std.specs.Prelude.{◌≡◌, Ok, nat_lt};

use crate::check::Check;
use crate::error::HolderRefusal;
use crate::object::Object;
use family::{CommutingFamily, has_right, thin_number};

/// The port of the service that made the capability: 48 bits.
#[derive(Clone, Copy, PartialEq, Eq, Hash, Debug)]
pub struct Port {
    pub bytes: [u8; 6],
}

/// The rights held: right k is bit k.
#[derive(Clone, Copy, PartialEq, Eq, Hash, Debug)]
pub struct Rights {
    pub bits: u8,
}

/// The rights to keep when a capability is thinned: right k is bit k.
#[derive(Clone, Copy, PartialEq, Eq, Hash, Debug)]
pub struct Mask {
    pub bits: u8,
}

/// What a holder holds and passes on. No part can be wider than its field.
#[derive(Clone, Copy, PartialEq, Eq, Hash, Debug)]
pub struct Capability {
    pub port: Port,
    pub object: Object,
    pub rights: Rights,
    pub check: Check,
}

/// Refused unless the number of a check is below the family's modulus.
fn check_range<F: CommutingFamily>(family: &F, number: u64) -> Result<(), HolderRefusal>
    ensures { result ≡ unless (nat_lt number (F.meaning family.now).modulus) CheckTooLarge (Ok tt) }
{
    if number >= family.modulus() {
        return Err(HolderRefusal::CheckTooLarge);
    }
    Ok(())
}

/// The capability without right k.
///
/// It takes the number of the check: the laws of the public calls need what `number` ensures.
fn without_right<F: CommutingFamily>(
    family: &F,
    capability: Capability,
    number: u64,
    k: u64,
) -> Result<Capability, HolderRefusal>
    requires { number ≡ check_number capability }
    ensures { result ≡ drop_right (F.meaning family.now) capability k }
{
    if k > 7 {
        return Err(HolderRefusal::NoSuchRight);
    }
    check_range(family, number)?;
    let held = capability.rights.bits;
    if !has_right(held, k) {
        return Ok(capability);
    }
    Ok(Capability {
        rights: Rights {
            bits: held & !(1 << k),
        },
        check: Check::new(family.apply(k, number)).unwrap(),
        ..capability
    })
}

/// The capability with its held rights within the mask only. `number` is that of its check.
fn within_mask<F: CommutingFamily>(
    family: &F,
    capability: Capability,
    number: u64,
    mask: u8,
) -> Result<Capability, HolderRefusal>
    requires { number ≡ check_number capability }
    ensures { result ≡ thin_to (F.meaning family.now) capability mask }
{
    check_range(family, number)?;
    let held = capability.rights.bits;
    let thinned = thin_number(family, number, held & !mask);
    Ok(Capability {
        rights: Rights { bits: held & mask },
        check: Check::new(thinned).unwrap(),
        ..capability
    })
}

impl Capability {
    /// Drops right k: clears its bit, and puts the check through f_k.
    ///
    /// A missing right changes nothing.
    pub fn drop_right<F: CommutingFamily>(
        self,
        family: &F,
        k: u64,
    ) -> Result<Capability, HolderRefusal>
        ensures value { result ≡ drop_right (F.meaning family.now) self k }
        ensures genuine { StaysGenuine (F.meaning family.now) self result }
        ensures order { AnyOrder (F.meaning family.now) self k }
    {
        let number = self.check.number();
        without_right(family, self, number, k)
    }

    /// Thins to a mask: drops each held right whose bit in the mask is 0.
    pub fn thin_to<F: CommutingFamily>(
        self,
        family: &F,
        mask: Mask,
    ) -> Result<Capability, HolderRefusal>
        ensures value { result ≡ thin_to (F.meaning family.now) self mask.bits }
        ensures genuine { StaysGenuine (F.meaning family.now) self result }
        ensures twice { TwiceIsOnce (F.meaning family.now) self mask.bits }
        ensures one_by_one { OneByOne (F.meaning family.now) self mask.bits }
    {
        let number = self.check.number();
        within_mask(family, self, number, mask.bits)
    }
}
