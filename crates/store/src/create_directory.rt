//! Creating directories.
ghost use Rattle.memory.specs.Held.{content};
ghost use Rattle.memory.specs.Loans.{SameLoan};
ghost use Rattle.std.specs.Prelude.{◌≡◌, ◌<◌, [], length, IfOk, IfErr};
ghost use Rattle.store.specs.CreateDirectory.{new_directory, place_for};
ghost use Rattle.store.specs.Inside.{attempt_of};
ghost use Rattle.store.specs.Outcomes.{outcome, outcome_by, told_as};
ghost use Rattle.store.specs.Requests.{create_directory, granted};
ghost use Rattle.store.specs.Serve.{outcome_of};
ghost use Rattle.store.specs.State.{state};

use crate::error::StoreRefusal;
use crate::request::Update;
use crate::store::Store;
use family::CommutingFamily;
use holder::Capability;
use memory::Memory;
use secret::{SETS, Scratch, Secret};

impl<F: CommutingFamily> Store<F> {
    /// The place of a new directory.
    fn free_directory(&self, memory: &Memory) -> Result<usize, StoreRefusal>
        ensures place { result ≡ place_for (state F.meaning self.now memory.now) }
        ensures there { IfOk result (λ p. p < length memory.now.directories.now) }
    {
        self.directories
            .claim(memory.directories)
            .ok_or(StoreRefusal::NoFreeRecord)
    }

    /// Writes the record of a new directory.
    fn write_directory(&mut self, memory: &mut Memory, place: usize, secret: Secret)
        requires { place < length memory.old.directories.now }
        ensures after { state F.meaning self.new memory.new
            ≡ (new_directory (state F.meaning self.old memory.old) secret place).after }
        ensures loan { SameLoan memory.old memory.new }
    {
        let new = memory.directories[place].made(secret);
        self.directories.give(memory.directories, place, new);
    }

    /// Creates a directory, where the scratch has its size.
    fn try_directory(
        &mut self,
        memory: &mut Memory,
        capability: Capability,
        secret: Secret,
        numbers: &mut [u64; SETS],
    ) -> Result<Capability, StoreRefusal>
        ensures outcome { outcome (told_as granted result) (state F.meaning self.new memory.new) []
            ≡ outcome_by (state F.meaning self.old memory.old) []
            (attempt_of (state F.meaning self.old memory.old) capability
            (create_directory secret)) }
        ensures loan { SameLoan memory.old memory.new }
    {
        let rule = Update::CreateDirectory { secret }.rule();
        let target = self.admit(memory, capability, rule)?;
        self.check_secret(memory, target, rule.secret, numbers)?;
        let place = self.free_directory(memory)?;
        let grant = self.grant(self.directory_number(place), secret);
        self.write_directory(memory, place, secret);
        Ok(grant)
    }

    /// Creates a directory without rows from a secret, and gives its owner capability.
    pub fn create_directory(
        &mut self,
        memory: &mut Memory,
        capability: Capability,
        secret: Secret,
        scratch: &mut [u64],
    ) -> Result<Capability, StoreRefusal>
        ensures outcome { outcome (told_as granted result)
            (state F.meaning self.new memory.new) scratch.new
            ≡ outcome_of (state F.meaning self.old memory.old) capability
            (create_directory secret) scratch.old }
        ensures unchanged { IfErr result (λ _. state F.meaning self.new memory.new
            ≡ state F.meaning self.old memory.old) }
        ensures loan { SameLoan memory.old memory.new }
    {
        self.check_sizes(memory, scratch)?;
        // Made here and not by a function, as in every call that has a guard.
        let guard = Scratch { numbers: scratch };
        let numbers = guard.numbers.as_mut_array().unwrap();
        self.try_directory(memory, capability, secret, numbers)
    }
}
