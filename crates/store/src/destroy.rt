//! Destroying files, and directories without rows.
ghost use Rattle.memory.specs.Held.{content};
ghost use Rattle.memory.specs.Loans.{SameLoan};
ghost use Rattle.std.specs.Prelude.{◌≡◌, ◌+◌, ◌≤◌, [], length, replicate, IfOk, IfErr};
ghost use Rattle.store.specs.Destroy.{destructible_object, without_object};
ghost use Rattle.store.specs.Inside.{IsWithinArea, attempt_of};
ghost use Rattle.store.specs.Outcomes.{outcome, outcome_by, told_as};
ghost use Rattle.store.specs.Parts.{with_part};
ghost use Rattle.store.specs.Requests.{destroy, done};
ghost use Rattle.store.specs.Serve.{outcome_of};
ghost use Rattle.store.specs.State.{state};

use crate::error::StoreRefusal;
use crate::request::Update;
use crate::store::Store;
use admission::{Denial, Target};
use family::CommutingFamily;
use holder::Capability;
use memory::Memory;

/// The object itself, if it may be destroyed.
fn check_destructible(target: Target) -> Result<Target, StoreRefusal>
    ensures object { result ≡ destructible_object target }
    ensures same { IfOk result (λ t. t ≡ target) }
{
    match target {
        Target::Itself => Err(Denial::WrongKind.into()),
        Target::Directory(_, record) if record.count != 0 => Err(StoreRefusal::RowsLeft),
        _ => Ok(target),
    }
}

/// Zeroes a part of the area.
fn zero_bytes(area: &mut [u8], start: usize, len: usize)
    requires { start + len ≤ length area.old }
    ensures { area.new ≡ with_part area.old start (replicate len 0) }
{
    let end = start + len;
    area[start..end].fill(0);
}

impl<F: CommutingFamily> Store<F> {
    /// Zeroes a file's bytes and its record, or a directory's record.
    fn remove_object(&self, memory: &mut Memory, target: Target)
        requires { IsWithinArea (content memory.old) target }
        ensures memory { content memory.new ≡ without_object (content memory.old) target }
        ensures loan { SameLoan memory.old memory.new }
    {
        match target {
            Target::Itself => {}
            Target::File(place, record) => {
                zero_bytes(memory.area, record.start as usize, record.length as usize);
                self.files.free(memory.files, place);
            }
            Target::Directory(place, _) => self.directories.free(memory.directories, place),
        }
    }

    /// Destroys by the object that is admitted.
    fn try_destroy(&self, memory: &mut Memory, capability: Capability) -> Result<(), StoreRefusal>
        ensures outcome { outcome (told_as (λ _. done) result)
            (state F.meaning self.now memory.new) []
            ≡ outcome_by (state F.meaning self.now memory.old) []
            (attempt_of (state F.meaning self.now memory.old) capability destroy) }
        ensures loan { SameLoan memory.old memory.new }
    {
        let target = self.admit(memory, capability, Update::Destroy.rule())?;
        let found = check_destructible(target)?;
        self.remove_object(memory, found);
        Ok(())
    }

    /// Destroys a file or a directory without rows.
    pub fn destroy(&self, memory: &mut Memory, capability: Capability) -> Result<(), StoreRefusal>
        ensures outcome { outcome (told_as (λ _. done) result)
            (state F.meaning self.now memory.new) []
            ≡ outcome_of (state F.meaning self.now memory.old) capability destroy [] }
        ensures unchanged { IfErr result (λ _. state F.meaning self.now memory.new
            ≡ state F.meaning self.now memory.old) }
        ensures loan { SameLoan memory.old memory.new }
    {
        self.try_destroy(memory, capability)
    }
}
