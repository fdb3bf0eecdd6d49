//! Looking names up, and walking paths.
ghost use Rattle.memory.specs.Held.{content};
ghost use Rattle.refusal.specs.Chains.{and_then, given};
ghost use Rattle.rows.specs.Paths.{names_in};
ghost use Rattle.rows.specs.Search.{place_of_name};
ghost use Rattle.std.specs.Prelude.{◌≡◌, ◌≤◌, IfOk, length, slice_index_or};
ghost use Rattle.memory.specs.Wiped.{zero_row};
ghost use Rattle.store.specs.Inside.{HasRows, admitted_at};
ghost use Rattle.store.specs.LookUp.{walk_end, lookup_by, shown_now};
ghost use Rattle.store.specs.Order.{IsInOrder};
ghost use Rattle.store.specs.Outcomes.{told_as};
ghost use Rattle.store.specs.Requests.{found, look_up, walk};
ghost use Rattle.store.specs.Rows.{directory_in, rows_in};
ghost use Rattle.store.specs.Rules.{to_see};
ghost use Rattle.store.specs.Serve.{reply_to};
ghost use Rattle.store.specs.State.{state};
ghost use Rattle.store.specs.Words.{LeadsOn, LeadsTo};
ghost use Rattle.store.specs.declared.error.StoreRefusal.TheVariants.{NoSuchRow};

use crate::error::StoreRefusal;
use crate::request::Query;
use crate::row::{DirectoryAt, list};
use crate::rule::TO_SEE;
use crate::store::Store;
use admission::{Denial, Target};
use family::CommutingFamily;
use holder::{Capability, Rights};
use memory::{Memory, Row};
use rows::{search, seen, split_first};

impl<F: CommutingFamily> Store<F> {
    /// The capability that a row shows to these rights, if the row's own is accepted now.
    fn show(
        &self,
        memory: &Memory,
        rights: Rights,
        row: &Row,
        place: u8,
    ) -> Result<Capability, StoreRefusal>
        ensures { result ≡ shown_now (state F.meaning self.now memory.now) rights.bits row.now
            place }
    {
        if self.gate.authenticate(memory, row.capability).is_err() {
            return Err(StoreRefusal::RowNotAccepted(place));
        }
        let mask = seen(rights, row.masks);
        row.capability
            .thin_to(&self.gate.family, mask)
            .map_err(|_| StoreRefusal::RowNotAccepted(place))
    }

    /// The capability that a name leads to in a directory.
    fn find(
        &self,
        memory: &Memory,
        rights: Rights,
        directory: DirectoryAt,
        name: &[u8],
        place: u8,
    ) -> Result<Capability, StoreRefusal>
        requires { HasRows (content memory.now) directory }
        ensures { result
            ≡ given (place_of_name name.now (rows_in (content memory.now) directory))
            (NoSuchRow place) (λ p.
            shown_now (state F.meaning self.now memory.now) rights.bits
            (slice_index_or (rows_in (content memory.now) directory) p zero_row) place) }
    {
        let rows = list(memory, directory);
        let at = search(rows, name).ok_or(StoreRefusal::NoSuchRow(place))?;
        self.show(memory, rights, &rows[at], place)
    }

    /// The directory that a capability may see into, over memory in order.
    ///
    /// Tells a denial at a place.
    fn see(
        &self,
        memory: &Memory,
        capability: Capability,
        place: u8,
    ) -> Result<DirectoryAt, StoreRefusal>
        requires { IsInOrder (state F.meaning self.now memory.now) }
        ensures directory { result
            ≡ and_then (admitted_at (state F.meaning self.now memory.now) to_see capability place)
            directory_in }
        ensures rows { IfOk result (HasRows (content memory.now)) }
    {
        match self.admit_at(memory, TO_SEE, capability, place)? {
            Target::Directory(place, found) => Ok(DirectoryAt { place, found }),
            _ => Err(Denial::WrongKind.into()),
        }
    }

    /// Looks a name up, over memory in order. Tells a refusal at a place.
    fn look(
        &self,
        memory: &Memory,
        capability: Capability,
        name: &[u8],
        place: u8,
    ) -> Result<Capability, StoreRefusal>
        requires { IsInOrder (state F.meaning self.now memory.now) }
        ensures { result ≡ lookup_by (state F.meaning self.now memory.now) capability name.now
            place }
    {
        let directory = self.see(memory, capability, place)?;
        self.find(memory, capability.rights, directory, name, place)
    }

    /// Looks the names of a path up, each under the result before, over memory in order.
    fn follow(
        &self,
        memory: &Memory,
        capability: Capability,
        path: &[u8],
    ) -> Result<Capability, StoreRefusal>
        requires order { IsInOrder (state F.meaning self.now memory.now) }
        requires few { length (names_in path.now) ≤ 16 }
        ensures { result ≡ walk_end (state F.meaning self.now memory.now) capability
            (names_in path.now) 1 }
    {
        let mut reached = capability;
        let mut place = 1u8;
        let mut rest = Some(path);
        while let Some(names) = rest {
            let split = split_first(names);
            match self.look(memory, reached, split.first, place) {
                Ok(found) => reached = found,
                Err(e) => return Err(e),
            }
            place += 1;
            rest = split.rest;
        }
        Ok(reached)
    }

    /// The capability of the row that a name has in a directory, thinned to the columns that the
    /// rights presented see.
    pub fn look_up(
        &self,
        memory: &Memory,
        capability: Capability,
        name: &[u8],
    ) -> Result<Capability, StoreRefusal>
        ensures reply { told_as found result
            ≡ reply_to (state F.meaning self.now memory.now) capability (look_up name.now) }
        ensures leads_to { IfOk result
            (LeadsTo (state F.meaning self.now memory.now) capability name.now) }
    {
        self.validate(memory, Query::LookUp { name }.rule().form)?;
        self.look(memory, capability, name, 0)
    }

    /// The capability at the end of a path: each name is looked up under the result before.
    pub fn walk(
        &self,
        memory: &Memory,
        capability: Capability,
        path: &[u8],
    ) -> Result<Capability, StoreRefusal>
        ensures reply { told_as found result
            ≡ reply_to (state F.meaning self.now memory.now) capability (walk path.now) }
        ensures leads_on { IfOk result
            (LeadsOn (state F.meaning self.now memory.now) capability (names_in path.now)) }
    {
        self.validate(memory, Query::Walk { path }.rule().form)?;
        self.follow(memory, capability, path)
    }
}
