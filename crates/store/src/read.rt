//! Reading files, and asking their sizes.
ghost use Rattle.refusal.specs.Chains.{and_then};
ghost use Rattle.std.specs.Prelude.{◌≡◌, ◌+◌, ◌≤◌, length, IfOk};
ghost use Rattle.store.specs.Inside.{admitted_by};
ghost use Rattle.store.specs.Outcomes.{told_as};
ghost use Rattle.store.specs.Read.{file_in, shown_bytes};
ghost use Rattle.store.specs.Requests.{read, size, the_bytes, the_size};
ghost use Rattle.store.specs.Serve.{reply_to};
ghost use Rattle.store.specs.State.{state};
ghost use Rattle.store.specs.Words.{IsFile, IsFileOfLength};

use crate::error::StoreRefusal;
use crate::request::Query;
use crate::rule::Rule;
use crate::store::Store;
use admission::{Denial, Target};
use family::CommutingFamily;
use holder::Capability;
use memory::{FileRecord, Memory};

impl<F: CommutingFamily> Store<F> {
    /// The record of the file that a capability is admitted to by a rule: it lies in the area.
    pub(crate) fn admit_file(
        &self,
        memory: &Memory,
        capability: Capability,
        rule: Rule,
    ) -> Result<FileRecord, StoreRefusal>
        ensures file { result
            ≡ and_then (admitted_by (state F.meaning self.now memory.now) rule capability) file_in }
        ensures within { IfOk result
            (λ file. file.start + file.length ≤ length memory.now.area.now) }
    {
        match self.admit(memory, capability, rule)? {
            Target::File(_, record) => Ok(record),
            _ => Err(Denial::WrongKind.into()),
        }
    }

    /// The bytes of a file: its part of the area.
    pub fn read<'a>(
        &self,
        memory: &'a Memory,
        capability: Capability,
    ) -> Result<&'a [u8], StoreRefusal>
        ensures reply { told_as the_bytes (shown_bytes result)
            ≡ reply_to (state F.meaning self.now memory.now) capability read }
        ensures file { IfOk result (λ bytes.
            IsFile (state F.meaning self.now memory.now) capability bytes.now) }
    {
        let file = self.admit_file(memory, capability, Query::Read.rule())?;
        let start = file.start as usize;
        let end = start + file.length as usize;
        Ok(&memory.area[start..end])
    }

    /// The length of a file.
    pub fn size(&self, memory: &Memory, capability: Capability) -> Result<u64, StoreRefusal>
        ensures reply { told_as the_size result
            ≡ reply_to (state F.meaning self.now memory.now) capability size }
        ensures length { IfOk result
            (IsFileOfLength (state F.meaning self.now memory.now) capability) }
    {
        let file = self.admit_file(memory, capability, Query::Size.rule())?;
        Ok(file.length)
    }
}
