//! The rows of a directory, and their names.
ghost use Rattle.memory.specs.Held.{content};
ghost use Rattle.refusal.specs.Chains.{and_then};
ghost use Rattle.rows.specs.Search.{place_of_object};
ghost use Rattle.std.specs.Prelude.{◌≡◌, ◌<◌, IfOk, IfSome, length};
ghost use Rattle.store.specs.Inside.{HasRows, IsCounted, admitted_by, wanted_place};
ghost use Rattle.store.specs.Outcomes.{told_as};
ghost use Rattle.store.specs.Read.{shown_bytes};
ghost use Rattle.store.specs.Requests.{name, row, the_name};
ghost use Rattle.store.specs.Rows.{directory_in, name_at, nth_place, rows_in, wanted_row};
ghost use Rattle.store.specs.Serve.{reply_to};
ghost use Rattle.store.specs.State.{state};
ghost use Rattle.store.specs.Words.{IsNameOfRow};

use crate::error::StoreRefusal;
use crate::request::Query;
use crate::rule::Rule;
use crate::store::Store;
use admission::{Denial, Target};
use family::CommutingFamily;
use holder::{Capability, Object};
use memory::{DirectoryRecord, Memory, Row};
use rows::{last_for, search};

/// A live directory, with its place.
#[derive(Clone, Copy)]
pub struct DirectoryAt {
    pub place: usize,
    pub found: DirectoryRecord,
}

/// A row of a directory, by its place among the directory's rows.
#[derive(Clone, Copy)]
pub struct RowAt {
    pub directory: DirectoryAt,
    pub row: usize,
}

/// Which row of a directory is wanted.
#[derive(Clone, Copy)]
pub enum Wanted<'a> {
    /// The one with this number, counted from 0.
    Nth(u64),
    /// The one that was entered last with this object.
    WithObject(Object),
    /// The one of this name.
    Named(&'a [u8]),
}

impl Wanted<'_> {
    /// The place of that row, if there is one.
    fn place(self, rows: &[Row]) -> Option<usize>
        ensures place { result ≡ wanted_place self.entry rows.now }
        ensures within { IfSome result (λ p. p < length rows.now) }
    {
        match self {
            Wanted::Nth(n) => (n < rows.len() as u64).then_some(n as usize),
            Wanted::WithObject(object) => last_for(rows, object),
            Wanted::Named(name) => search(rows, name),
        }
    }
}

/// The counted rows of a directory.
pub(crate) fn list<'a>(memory: &'a Memory, directory: DirectoryAt) -> &'a [Row]
    requires { HasRows (content memory.now) directory }
    ensures rows { result.now ≡ rows_in (content memory.now) directory }
    ensures count { length result.now ≡ directory.found.count }
{
    let start = 16 * directory.place;
    let end = start + directory.found.count as usize;
    &memory.rows[start..end]
}

impl<F: CommutingFamily> Store<F> {
    /// The directory that a capability is admitted to by a rule.
    pub(crate) fn admit_directory(
        &self,
        memory: &Memory,
        capability: Capability,
        rule: Rule,
    ) -> Result<DirectoryAt, StoreRefusal>
        ensures directory { result
            ≡ and_then (admitted_by (state F.meaning self.now memory.now) rule capability)
            directory_in }
        ensures rows { IfOk result (HasRows (content memory.now)) }
    {
        match self.admit(memory, capability, rule)? {
            Target::Directory(place, found) => Ok(DirectoryAt { place, found }),
            _ => Err(Denial::WrongKind.into()),
        }
    }

    /// The row that is wanted of the directory that a capability is admitted to by a rule.
    pub(crate) fn find_row(
        &self,
        memory: &Memory,
        capability: Capability,
        rule: Rule,
        wanted: Wanted,
    ) -> Result<RowAt, StoreRefusal>
        ensures row { result
            ≡ and_then (admitted_by (state F.meaning self.now memory.now) rule capability)
            (wanted_row (content memory.now) (wanted_place wanted.entry) 0) }
        ensures counted { IfOk result (IsCounted (content memory.now)) }
    {
        let directory = self.admit_directory(memory, capability, rule)?;
        let row = wanted
            .place(list(memory, directory))
            .ok_or(StoreRefusal::NoSuchRow(0))?;
        Ok(RowAt { directory, row })
    }

    /// The name of the row that is wanted.
    fn name_of<'a>(
        &self,
        memory: &'a Memory,
        capability: Capability,
        rule: Rule,
        wanted: Wanted,
    ) -> Result<&'a [u8], StoreRefusal>
        ensures { told_as the_name (shown_bytes result)
            ≡ told_as (λ at. the_name (name_at (content memory.now) at))
            (and_then (admitted_by (state F.meaning self.now memory.now) rule capability)
            (wanted_row (content memory.now) (wanted_place wanted.entry) 0)) }
    {
        let at = self.find_row(memory, capability, rule, wanted)?;
        Ok(list(memory, at.directory)[at.row].name())
    }

    /// The name of the row at a place of a directory, counted from 0.
    pub fn row<'a>(
        &self,
        memory: &'a Memory,
        capability: Capability,
        n: u64,
    ) -> Result<&'a [u8], StoreRefusal>
        ensures reply { told_as the_name (shown_bytes result)
            ≡ reply_to (state F.meaning self.now memory.now) capability (row n) }
        ensures nth { IfOk result (λ bytes.
            IsNameOfRow (state F.meaning self.now memory.now) capability (nth_place n)
            bytes.now) }
    {
        self.name_of(memory, capability, Query::Row { n }.rule(), Wanted::Nth(n))
    }

    /// The name of the row of a directory that was entered last with an object.
    pub fn name<'a>(
        &self,
        memory: &'a Memory,
        capability: Capability,
        object: Object,
    ) -> Result<&'a [u8], StoreRefusal>
        ensures reply { told_as the_name (shown_bytes result)
            ≡ reply_to (state F.meaning self.now memory.now) capability (name object.value) }
        ensures with_object { IfOk result (λ bytes.
            IsNameOfRow (state F.meaning self.now memory.now) capability
            (place_of_object object.value)
            bytes.now) }
    {
        self.name_of(
            memory,
            capability,
            Query::Name { object }.rule(),
            Wanted::WithObject(object),
        )
    }
}
