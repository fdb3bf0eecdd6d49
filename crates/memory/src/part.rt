//! Parts of the area: so many bytes from a start on.
ghost use Rattle.std.specs.Prelude.{◌≡◌, ◌+◌, nat_le};
ghost use Rattle.memory.specs.Parts.{is_clear_of};

use crate::file_record::FileRecord;

/// A part of the area.
#[derive(Clone, Copy)]
pub(crate) struct Part {
    pub start: u64,
    pub length: u64,
}

impl Part {
    /// Whether the part ends here or before.
    pub fn ends_by(self, limit: u64) -> bool
        ensures { result ≡ nat_le (self.start + self.length) limit }
    {
        self.start
            .checked_add(self.length)
            .is_some_and(|end| end <= limit)
    }

    /// Whether the part shares no byte with a file, or the record is free.
    pub fn is_clear_of(self, file: &FileRecord) -> bool
        ensures { result ≡ is_clear_of self.start self.length file.now }
    {
        // Each request tests every two files, and two tests are quicker than a branch.
        (!file.live | self.ends_by(file.start))
            || file.part().ends_by(self.start)
            || self.length == 0
            || file.length == 0
    }
}
