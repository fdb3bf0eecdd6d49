//! The places of a table: the store resumes it for one change each.
ghost use Rattle.std.specs.Prelude.{◌≡◌, ◌+◌, ◌<◌, length, slice_set};
ghost use Rattle.table.specs.Table.{IsClaimedPlace, claimed_place, with_freed};

use table::{Record, Table};

/// How many records a table has, and where its next claim begins.
#[derive(Clone, Copy)]
pub struct Places {
    pub(crate) size: usize,
    pub(crate) next: usize,
}

impl Places {
    /// The place to claim in the records.
    pub(crate) fn claim<R: Record>(self, records: &[R]) -> Option<usize>
        ensures value { result ≡ claimed_place R.is_live records.now self.next }
        ensures words { IsClaimedPlace R.is_live records.now self.next result }
    {
        Table::resume(records, self.next).claim()
    }

    /// Gives a place to a record, and goes on from there.
    pub(crate) fn give<R: Record>(&mut self, records: &mut [R], place: usize, record: R)
        requires { place < length records.old }
        ensures records { records.new ≡ slice_set records.old place «record» }
        ensures size { self.new.size ≡ self.old.size }
        ensures next { self.new.next ≡ place + 1 }
    {
        let mut table = Table::resume(records, self.next);
        let _ = table.give(place, record);
        self.next = table.next();
    }

    /// Replaces the record at a place.
    pub(crate) fn replace<R: Record>(self, records: &mut [R], place: usize, record: R)
        ensures { records.new ≡ slice_set records.old place «record» }
    {
        let mut table = Table::resume(records, self.next);
        let _ = table.put(place, record);
    }

    /// Frees the record at a place.
    pub(crate) fn free<R: Record>(self, records: &mut [R], place: usize)
        ensures { records.new ≡ with_freed R.blank_of records.old place }
    {
        let mut table = Table::resume(records, self.next);
        let _ = table.free(place);
    }
}
