//! The checks that every request meets, in their order.
ghost use Rattle.refusal.specs.Chains.{unless};
ghost use Rattle.std.specs.Prelude.{◌≡◌, ◌&&◌, true, IfOk, Ok};
ghost use Rattle.store.specs.Inside.{IsAdmitted, admitted_at, admitted_by, validation};
ghost use Rattle.store.specs.Order.{IsInOrder, is_usable};
ghost use Rattle.store.specs.Sizes.{is_full_scratch, sizes_agree};
ghost use Rattle.store.specs.State.{is_sound_for, state};
ghost use Rattle.store.specs.declared.error.StoreRefusal.TheVariants.{UnfitSecret, UnsoundMemory, WrongSizes};

use crate::error::StoreRefusal;
use crate::grant::check_fit;
use crate::rule::{Bring, Rule};
use crate::store::Store;
use admission::{Need, Target};
use family::CommutingFamily;
use holder::Capability;
use memory::{Memory, is_sound};
use secret::SETS;

impl<F: CommutingFamily> Store<F> {
    /// Refused unless memory has the sizes that it had at the opening.
    fn check_memory(&self, memory: &Memory) -> Result<(), StoreRefusal>
        ensures { result ≡ unless (sizes_agree (state F.meaning self.now memory.now)) WrongSizes
            (Ok tt) }
    {
        let agree = memory.files.len() == self.files.size
            && memory.directories.len() == self.directories.size
            && memory.rows.len() == 16 * self.directories.size
            && memory.area.len() == self.area;
        if !agree {
            return Err(StoreRefusal::WrongSizes);
        }
        Ok(())
    }

    /// Refused unless memory and scratch have the sizes that they must have.
    pub(crate) fn check_sizes(&self, memory: &Memory, scratch: &[u64]) -> Result<(), StoreRefusal>
        ensures { result
            ≡ unless (sizes_agree (state F.meaning self.now memory.now)
            && is_full_scratch scratch.now)
            WrongSizes (Ok tt) }
    {
        self.check_memory(memory)?;
        if scratch.len() != SETS {
            return Err(StoreRefusal::WrongSizes);
        }
        Ok(())
    }

    /// Refused unless memory is sound.
    fn check_sound(&self, memory: &Memory) -> Result<(), StoreRefusal>
        ensures { result ≡ unless (is_sound_for (state F.meaning self.now memory.now)) UnsoundMemory
            (Ok tt) }
    {
        if !is_sound(&self.gate.family, self.gate.port, memory) {
            return Err(StoreRefusal::UnsoundMemory);
        }
        Ok(())
    }

    /// Refused unless memory has the store's sizes and is sound, and unless the form is lawful.
    pub(crate) fn validate(
        &self,
        memory: &Memory,
        form: Result<(), StoreRefusal>,
    ) -> Result<(), StoreRefusal>
        ensures checks { result ≡ validation (state F.meaning self.now memory.now) form }
        ensures order { IfOk result (λ _. IsInOrder (state F.meaning self.now memory.now)) }
    {
        self.check_memory(memory)?;
        self.check_sound(memory)?;
        form
    }

    /// The object that a capability is admitted to; a denial is told at a place.
    pub(crate) fn admit_at(
        &self,
        memory: &Memory,
        need: Need,
        capability: Capability,
        place: u8,
    ) -> Result<Target, StoreRefusal>
        ensures { result ≡ admitted_at (state F.meaning self.now memory.now) need capability place }
    {
        match self.gate.admit(memory, need, capability) {
            Ok(target) => Ok(target),
            Err(denial) => Err(StoreRefusal::Denied(denial, place)),
        }
    }

    /// The object that a capability is admitted to by a rule.
    ///
    /// `pass` has the equation alone, from which the facts follow once, and not at every exit.
    pub(crate) fn admit(
        &self,
        memory: &Memory,
        capability: Capability,
        rule: Rule,
    ) -> Result<Target, StoreRefusal>
        ensures object { result ≡ admitted_by (state F.meaning self.now memory.now) rule
            capability }
        ensures facts { IfOk result (IsAdmitted (state F.meaning self.now memory.now)) }
    {
        self.pass(memory, capability, rule)
    }

    /// The checks of sizes, soundness, form and the gate.
    fn pass(
        &self,
        memory: &Memory,
        capability: Capability,
        rule: Rule,
    ) -> Result<Target, StoreRefusal>
        ensures { result ≡ admitted_by (state F.meaning self.now memory.now) rule capability }
    {
        self.validate(memory, rule.form)?;
        self.admit_at(memory, rule.need, capability, rule.place)
    }

    /// Refused unless a secret that is brought is usable.
    pub(crate) fn check_secret(
        &self,
        memory: &Memory,
        target: Target,
        secret: Bring,
        numbers: &mut [u64; SETS],
    ) -> Result<(), StoreRefusal>
        ensures secret { result
            ≡ unless (is_usable (state F.meaning self.now memory.now) target secret) UnfitSecret
            (Ok tt) }
        ensures usable { IfOk result (λ _.
            is_usable (state F.meaning self.now memory.now) target secret ≡ true) }
    {
        match secret {
            Bring::Nothing => Ok(()),
            Bring::First(secret) => check_fit(&self.gate.family, secret, numbers),
            Bring::Next(secret) => {
                check_fit(&self.gate.family, secret, numbers)?;
                if target.secret(self.gate.secret) == secret {
                    return Err(StoreRefusal::UnfitSecret);
                }
                Ok(())
            }
        }
    }
}
