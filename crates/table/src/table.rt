//! A table over a lent slice of records.
ghost use Rattle.table.specs.Table.{IsClaimedPlace, IsLiveRecord, IsFreed, claim_after, claimed_place, live_record, with_freed};
ghost use Rattle.std.specs.Prelude.{◌≡◌, ◌<◌, IfSome, length, nat_lt, not, position, slice_set};

use crate::lent::Lent;
use crate::record::Record;

/// The records of a lent slice, and where the next claim begins.
///
/// A claim begins behind the last place given. The records do not tell that place.
#[derive(Drop)]
pub struct Table<S> {
    records: S,
    next: usize,
}

/// The first free place of all.
fn first_free<R: Record>(records: &[R]) -> Option<usize>
    ensures value { result ≡ position (λ r. not (R.is_live r)) records.now }
    ensures within { IfSome result (λ place. place < length records.now) }
{
    records.iter().position(|record| !record.live())
}

impl<S: Lent> Table<S> {
    /// The table of these records whose first claim begins at place 0.
    pub fn new(records: S) -> Table<S>
        ensures { result ≡ record { records = records; next = 0 } }
    {
        Table::resume(records, 0)
    }

    /// The table of these records as an earlier loan left it: the next claim begins at `next`.
    pub fn resume(records: S, next: usize) -> Table<S>
        ensures { result ≡ record { records = records; next = next } }
    {
        Table { records, next }
    }

    /// Where the next claim begins.
    pub fn next(&self) -> usize
        ensures { result ≡ self.now.next }
    {
        self.next
    }

    /// The record at a place where it is live.
    pub fn find(&self, place: usize) -> Option<S::Record>
        ensures value { result ≡ live_record S.Record.is_live (S.held self.now.records) place }
        ensures words { IsLiveRecord S.Record.is_live (S.held self.now.records) place result }
    {
        self.records
            .as_slice()
            .get(place)
            .copied()
            .filter(|record| record.live())
    }

    /// The first free place from where the claim begins, going round. The caller then gives it.
    pub fn claim(&self) -> Option<usize>
        ensures value { result ≡ claimed_place S.Record.is_live (S.held self.now.records)
            self.now.next }
        ensures words { IsClaimedPlace S.Record.is_live (S.held self.now.records) self.now.next
            result }
    {
        let records = self.records.as_slice();
        let start = self.next.checked_rem(records.len())?;
        let (before, from) = records.split_at(start);
        first_free(from)
            .map(|steps| start + steps)
            .or_else(|| first_free(before))
    }
}

/// Changes the records, and returns whether there is such a place. Each clause `lender` says that
/// the table still borrows the same slice.
impl<R: Record> Table<&mut [R]> {
    /// Writes a record at a claimed place. The next claim begins behind it. Beyond the end nothing
    /// changes.
    pub fn give(&mut self, place: usize, value: R) -> bool
        ensures there { result ≡ nat_lt place (length self.old.records.now) }
        ensures records { self.new.records.now ≡ slice_set self.old.records.now place value }
        ensures next { self.new.next
            ≡ claim_after (length self.old.records.now) place self.old.next }
        ensures lender { self.new.records.ghost_name ≡ self.old.records.ghost_name }
    {
        let given = self.put(place, value);
        if given {
            self.next = place + 1;
        }
        given
    }

    /// Replaces the record at a place. Beyond the end nothing changes.
    pub fn put(&mut self, place: usize, value: R) -> bool
        ensures there { result ≡ nat_lt place (length self.old.records.now) }
        ensures records { self.new.records.now ≡ slice_set self.old.records.now place value }
        ensures next { self.new.next ≡ self.old.next }
        ensures lender { self.new.records.ghost_name ≡ self.old.records.ghost_name }
    {
        // By an index: after a slice's `get_mut` a proof knows no element.
        let there = place < self.records.len();
        if there {
            self.records[place] = value;
        }
        there
    }

    /// Frees the record at a place. Beyond the end nothing changes.
    pub fn free(&mut self, place: usize) -> bool
        ensures there { result ≡ nat_lt place (length self.old.records.now) }
        ensures records { self.new.records.now ≡ with_freed R.blank_of self.old.records.now place }
        ensures words { IsFreed R.is_live self.old.records.now self.new.records.now place }
        ensures next { self.new.next ≡ self.old.next }
        ensures lender { self.new.records.ghost_name ≡ self.old.records.ghost_name }
    {
        if place >= self.records.len() {
            return false;
        }
        let blank = self.records[place].blank();
        self.put(place, blank)
    }
}
