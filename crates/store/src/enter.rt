//! Entering a row into a directory.
ghost use Rattle.memory.specs.Held.{content};
ghost use Rattle.memory.specs.Loans.{SameLoan};
ghost use Rattle.refusal.specs.Chains.{and_then};
ghost use Rattle.std.specs.Prelude.{◌≡◌, ◌<◌, [], IfOk, IfErr};
ghost use Rattle.store.specs.Enter.{entry_form, room_in, with_row};
ghost use Rattle.store.specs.Inside.{HasRows, HasRoom, admitted_by};
ghost use Rattle.store.specs.Outcomes.{outcome, told_as};
ghost use Rattle.store.specs.Requests.{done, enter};
ghost use Rattle.store.specs.Serve.{outcome_of};
ghost use Rattle.store.specs.State.{state};

use crate::error::StoreRefusal;
use crate::request::Update;
use crate::row::{DirectoryAt, list};
use crate::rule::Rule;
use crate::store::Store;
use family::CommutingFamily;
use holder::Capability;
use memory::{Masks, Memory, Name, Row};
use rows::{put_last, row_of, search};

impl<F: CommutingFamily> Store<F> {
    /// Refused unless the capability may be entered under the name.
    fn check_entry(
        &self,
        memory: &Memory,
        directory: DirectoryAt,
        name: &[u8],
        entry: Capability,
    ) -> Result<(), StoreRefusal>
        requires { HasRows (content memory.now) directory }
        ensures { result ≡ entry_form (state F.meaning self.now memory.now) name.now entry
            directory }
    {
        if self.gate.authenticate(memory, entry).is_err() {
            return Err(StoreRefusal::EntryNotAccepted);
        }
        if search(list(memory, directory), name).is_some() {
            return Err(StoreRefusal::NameTaken);
        }
        if directory.found.count >= 16 {
            return Err(StoreRefusal::DirectoryFull);
        }
        Ok(())
    }

    /// The directory with room for an entry under a name.
    fn find_room(
        &self,
        memory: &Memory,
        capability: Capability,
        rule: Rule,
        name: &[u8],
        entry: Capability,
    ) -> Result<DirectoryAt, StoreRefusal>
        ensures directory { result
            ≡ and_then (admitted_by (state F.meaning self.now memory.now) rule capability)
            (room_in (state F.meaning self.now memory.now) name.now entry) }
        ensures room { IfOk result (HasRoom (content memory.now)) }
    {
        let directory = self.admit_directory(memory, capability, rule)?;
        self.check_entry(memory, directory, name, entry)?;
        Ok(directory)
    }

    /// Writes a row behind the others of a directory.
    fn write_row(&self, memory: &mut Memory, directory: DirectoryAt, row: Row)
        requires { HasRoom (content memory.old) directory }
        ensures after { state F.meaning self.now memory.new
            ≡ (with_row (state F.meaning self.now memory.old) row directory).after }
        ensures loan { SameLoan memory.old memory.new }
    {
        let start = 16 * directory.place;
        let count = directory.found.count + 1;
        let end = start + count as usize;
        put_last(&mut memory.rows[start..end], row);
        let found = directory.found.recounted(count);
        self.directories
            .replace(memory.directories, directory.place, found);
    }

    /// Enters a capability with masks into a directory, under a name that no row of it has.
    pub fn enter(
        &self,
        memory: &mut Memory,
        capability: Capability,
        name: &[u8],
        entry: Capability,
        masks: Masks,
    ) -> Result<(), StoreRefusal>
        ensures outcome { outcome (told_as (λ _. done) result)
            (state F.meaning self.now memory.new) []
            ≡ outcome_of (state F.meaning self.now memory.old) capability
            (enter name.now entry masks) [] }
        ensures unchanged { IfErr result (λ _. state F.meaning self.now memory.new
            ≡ state F.meaning self.now memory.old) }
        ensures loan { SameLoan memory.old memory.new }
    {
        let rule = Update::Enter { name, entry, masks }.rule();
        let directory = self.find_room(memory, capability, rule, name, entry)?;
        let name = Name::new(name).unwrap();
        self.write_row(memory, directory, row_of(name, entry, masks));
        Ok(())
    }
}
