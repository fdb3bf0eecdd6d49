//! One call for any query, one for any update, and one for any request.
ghost use Rattle.memory.specs.Held.{content};
ghost use Rattle.memory.specs.Loans.{SameLoan};
ghost use Rattle.refusal.specs.Chains.{and_then};
ghost use Rattle.std.specs.Prelude.{◌≡◌, IfOk, IfErr};
ghost use Rattle.store.specs.Inside.{admitted_by, wanted_place};
ghost use Rattle.store.specs.Outcomes.{outcome, told_as};
ghost use Rattle.store.specs.Requests.{read, the_name};
ghost use Rattle.store.specs.Rows.{name_at, wanted_row};
ghost use Rattle.store.specs.Serve.{outcome_of, reply_to, request_outcome};
ghost use Rattle.store.specs.State.{state};
ghost use Rattle.store.specs.Told.{IsOfPresented, IsWithin};
ghost use Rattle.store.specs.Values.{ask_of, query_of, told_in, update_of};

use crate::error::StoreRefusal;
use crate::request::{Answer, Query, Request, Update};
use crate::row::Wanted;
use crate::rule::Rule;
use crate::store::Store;
use family::CommutingFamily;
use holder::Capability;
use memory::Memory;

impl<F: CommutingFamily> Store<F> {
    /// Where the bytes of the file presented lie.
    fn tell_part(&self, memory: &Memory, capability: Capability) -> Result<Answer, StoreRefusal>
        ensures reply { told_as (told_in (content memory.now)) result
            ≡ reply_to (state F.meaning self.now memory.now) capability read }
        ensures presented { IfOk result
            (IsOfPresented (state F.meaning self.now memory.now) capability) }
        ensures within { IfOk result (IsWithin (content memory.now)) }
    {
        let file = self.admit_file(memory, capability, Query::Read.rule())?;
        Ok(Answer::Part {
            start: file.start,
            length: file.length,
        })
    }

    /// Where the row that is wanted of the directory presented lies.
    fn tell_row(
        &self,
        memory: &Memory,
        capability: Capability,
        rule: Rule,
        wanted: Wanted,
    ) -> Result<Answer, StoreRefusal>
        ensures reply { told_as (told_in (content memory.now)) result
            ≡ told_as (λ at. the_name (name_at (content memory.now) at))
            (and_then (admitted_by (state F.meaning self.now memory.now) rule capability)
            (wanted_row (content memory.now) (wanted_place wanted.entry) 0)) }
        ensures presented { IfOk result
            (IsOfPresented (state F.meaning self.now memory.now) capability) }
        ensures within { IfOk result (IsWithin (content memory.now)) }
    {
        let at = self.find_row(memory, capability, rule, wanted)?;
        Ok(Answer::Name {
            row: 16 * at.directory.place + at.row,
        })
    }

    /// Answers any query.
    pub fn query(
        &self,
        memory: &Memory,
        capability: Capability,
        query: Query,
    ) -> Result<Answer, StoreRefusal>
        ensures reply { told_as (told_in (content memory.now)) result
            ≡ reply_to (state F.meaning self.now memory.now) capability (query_of query.entry) }
        ensures presented { IfOk result
            (IsOfPresented (state F.meaning self.now memory.now) capability) }
        ensures within { IfOk result (IsWithin (content memory.now)) }
    {
        let rule = query.rule();
        match query {
            Query::Read => self.tell_part(memory, capability),
            Query::Size => self.size(memory, capability).map(Answer::Length),
            Query::LookUp { name } => self.look_up(memory, capability, name).map(Answer::Found),
            Query::Walk { path } => self.walk(memory, capability, path).map(Answer::Found),
            Query::Row { n } => self.tell_row(memory, capability, rule, Wanted::Nth(n)),
            Query::Name { object } => {
                self.tell_row(memory, capability, rule, Wanted::WithObject(object))
            }
        }
    }

    /// Carries out any update; the scratch is used where a secret is brought.
    pub fn update(
        &mut self,
        memory: &mut Memory,
        capability: Capability,
        update: Update,
        scratch: &mut [u64],
    ) -> Result<Answer, StoreRefusal>
        ensures outcome { outcome (told_as (told_in (content memory.new)) result)
            (state F.meaning self.new memory.new)
            scratch.new
            ≡ outcome_of (state F.meaning self.old memory.old) capability (update_of update.entry)
            scratch.old }
        ensures presented { IfOk result
            (IsOfPresented (state F.meaning self.old memory.old) capability) }
        ensures within { IfOk result (IsWithin (content memory.new)) }
        ensures unchanged { IfErr result (λ _. state F.meaning self.new memory.new
            ≡ state F.meaning self.old memory.old) }
        ensures loan { SameLoan memory.old memory.new }
    {
        match update {
            Update::CreateFile { bytes, secret } => {
                self.create_file(memory, capability, bytes, secret, scratch)
                    .map(Answer::Granted)
            }
            Update::CreateDirectory { secret } => {
                self.create_directory(memory, capability, secret, scratch)
                    .map(Answer::Granted)
            }
            Update::Enter { name, entry, masks } => {
                self.enter(memory, capability, name, entry, masks)
                    .map(|()| Answer::Done)
            }
            Update::Remove { name } => {
                self.remove(memory, capability, name).map(|()| Answer::Done)
            }
            Update::Destroy => self.destroy(memory, capability).map(|()| Answer::Done),
            Update::Revoke { secret } => {
                self.revoke(memory, capability, secret, scratch)
                    .map(Answer::Granted)
            }
        }
    }

    /// Serves any request.
    pub fn serve(
        &mut self,
        memory: &mut Memory,
        capability: Capability,
        request: Request,
        scratch: &mut [u64],
    ) -> Result<Answer, StoreRefusal>
        ensures outcome { outcome (told_as (told_in (content memory.new)) result)
            (state F.meaning self.new memory.new)
            scratch.new
            ≡ request_outcome (state F.meaning self.old memory.old) capability
            (ask_of request.entry) scratch.old }
        ensures presented { IfOk result
            (IsOfPresented (state F.meaning self.old memory.old) capability) }
        ensures within { IfOk result (IsWithin (content memory.new)) }
        ensures unchanged { IfErr result (λ _. state F.meaning self.new memory.new
            ≡ state F.meaning self.old memory.old) }
        ensures loan { SameLoan memory.old memory.new }
    {
        match request {
            Request::Query(query) => self.query(memory, capability, query),
            Request::Update(update) => self.update(memory, capability, update, scratch),
        }
    }
}
