//! Revoking: another secret for an object.
ghost use Rattle.memory.specs.Held.{content};
ghost use Rattle.memory.specs.Loans.{SameLoan};
ghost use Rattle.std.specs.Prelude.{◌≡◌, [], IfErr};
ghost use Rattle.store.specs.Inside.{attempt_of};
ghost use Rattle.store.specs.Outcomes.{outcome, outcome_by, told_as};
ghost use Rattle.store.specs.Requests.{granted, revoke};
ghost use Rattle.store.specs.Revoke.{revocation};
ghost use Rattle.store.specs.Serve.{outcome_of};
ghost use Rattle.store.specs.State.{state};

use crate::error::StoreRefusal;
use crate::request::Update;
use crate::store::Store;
use admission::Target;
use family::CommutingFamily;
use holder::Capability;
use memory::Memory;
use secret::{SETS, Scratch, Secret};

impl<F: CommutingFamily> Store<F> {
    /// Gives the object another secret.
    fn renew(&mut self, memory: &mut Memory, target: Target, secret: Secret)
        ensures after { state F.meaning self.new memory.new
            ≡ (revocation (state F.meaning self.old memory.old) secret target).after }
        ensures loan { SameLoan memory.old memory.new }
    {
        match target {
            Target::Itself => self.gate.secret = secret,
            Target::File(place, record) => {
                self.files
                    .replace(memory.files, place, record.renewed(secret))
            }
            Target::Directory(place, record) => {
                self.directories
                    .replace(memory.directories, place, record.renewed(secret))
            }
        }
    }

    /// Revokes, where the scratch has its size.
    fn try_revoke(
        &mut self,
        memory: &mut Memory,
        capability: Capability,
        secret: Secret,
        numbers: &mut [u64; SETS],
    ) -> Result<Capability, StoreRefusal>
        ensures outcome { outcome (told_as granted result) (state F.meaning self.new memory.new) []
            ≡ outcome_by (state F.meaning self.old memory.old) []
            (attempt_of (state F.meaning self.old memory.old) capability (revoke secret)) }
        ensures loan { SameLoan memory.old memory.new }
    {
        let rule = Update::Revoke { secret }.rule();
        let target = self.admit(memory, capability, rule)?;
        self.check_secret(memory, target, rule.secret, numbers)?;
        let grant = self.grant(self.number_of(target), secret);
        self.renew(memory, target, secret);
        Ok(grant)
    }

    /// Replaces the secret of an object, and gives the new owner capability.
    pub fn revoke(
        &mut self,
        memory: &mut Memory,
        capability: Capability,
        secret: Secret,
        scratch: &mut [u64],
    ) -> Result<Capability, StoreRefusal>
        ensures outcome { outcome (told_as granted result)
            (state F.meaning self.new memory.new) scratch.new
            ≡ outcome_of (state F.meaning self.old memory.old) capability (revoke secret)
            scratch.old }
        ensures unchanged { IfErr result (λ _. state F.meaning self.new memory.new
            ≡ state F.meaning self.old memory.old) }
        ensures loan { SameLoan memory.old memory.new }
    {
        self.check_sizes(memory, scratch)?;
        // Made here and not by a function, as in every call that has a guard.
        let guard = Scratch { numbers: scratch };
        let numbers = guard.numbers.as_mut_array().unwrap();
        self.try_revoke(memory, capability, secret, numbers)
    }
}
