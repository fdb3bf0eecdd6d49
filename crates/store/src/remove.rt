//! Removing a row of a directory.
ghost use Rattle.memory.specs.Held.{content};
ghost use Rattle.memory.specs.Loans.{SameLoan};
ghost use Rattle.std.specs.Prelude.{◌≡◌, [], IfErr};
ghost use Rattle.store.specs.Inside.{IsCounted};
ghost use Rattle.store.specs.Outcomes.{outcome, told_as};
ghost use Rattle.store.specs.Remove.{without_row};
ghost use Rattle.store.specs.Requests.{done, remove};
ghost use Rattle.store.specs.Serve.{outcome_of};
ghost use Rattle.store.specs.State.{state};

use crate::error::StoreRefusal;
use crate::request::Update;
use crate::row::{RowAt, Wanted};
use crate::store::Store;
use family::CommutingFamily;
use holder::Capability;
use memory::Memory;
use rows::close_gap;

impl<F: CommutingFamily> Store<F> {
    /// Moves the rows behind a place up, and zeroes the last one.
    fn erase_row(&self, memory: &mut Memory, at: RowAt)
        requires { IsCounted (content memory.old) at }
        ensures after { state F.meaning self.now memory.new
            ≡ (without_row (state F.meaning self.now memory.old) at).after }
        ensures loan { SameLoan memory.old memory.new }
    {
        let directory = at.directory;
        let start = 16 * directory.place;
        let count = directory.found.count;
        let end = start + count as usize;
        close_gap(&mut memory.rows[start..end], at.row);
        let found = directory.found.recounted(count - 1);
        self.directories
            .replace(memory.directories, directory.place, found);
    }

    /// Takes the row of a name away from a directory.
    pub fn remove(
        &self,
        memory: &mut Memory,
        capability: Capability,
        name: &[u8],
    ) -> Result<(), StoreRefusal>
        ensures outcome { outcome (told_as (λ _. done) result)
            (state F.meaning self.now memory.new) []
            ≡ outcome_of (state F.meaning self.now memory.old) capability (remove name.now) [] }
        ensures unchanged { IfErr result (λ _. state F.meaning self.now memory.new
            ≡ state F.meaning self.now memory.old) }
        ensures loan { SameLoan memory.old memory.new }
    {
        let rule = Update::Remove { name }.rule();
        let at = self.find_row(memory, capability, rule, Wanted::Named(name))?;
        self.erase_row(memory, at);
        Ok(())
    }
}
