//! The record of a file.
ghost use Rattle.memory.specs.Records.{blank_file, made_file, renewed_file, zero_file};
ghost use Rattle.std.specs.Prelude.{◌≡◌, refl};

use crate::part::Part;
use secret::Secret;
use table::Record;

/// A file: free, or live with its secret and its part of the area.
///
/// A caller may bring any numbers. Soundness asks something of them only where the record is live.
#[derive(Clone, Copy)]
pub struct FileRecord {
    pub live: bool,
    pub secret: Secret,
    pub start: u64,
    pub length: u64,
}

/// A file record of zeros.
pub fn zero_file() -> FileRecord
    ensures { result ≡ zero_file }
{
    FileRecord {
        live: false,
        secret: Secret::new(0),
        start: 0,
        length: 0,
    }
}

impl FileRecord {
    /// A new file in the place of this record.
    pub fn made(self, secret: Secret, start: u64, length: u64) -> FileRecord
        ensures { result ≡ made_file self secret start length }
    {
        FileRecord {
            live: true,
            secret,
            start,
            length,
        }
    }

    /// The same file with another secret.
    pub fn renewed(self, secret: Secret) -> FileRecord
        ensures { result ≡ renewed_file self secret }
    {
        FileRecord { secret, ..self }
    }

    /// The part of the area that the record names, live or not.
    pub(crate) fn part(&self) -> Part
        ensures start { result.start ≡ self.now.start }
        ensures length { result.length ≡ self.now.length }
    {
        Part {
            start: self.start,
            length: self.length,
        }
    }
}

impl Record for FileRecord {
    ghost is_live = { λ r. r.live };

    ghost blank_of = { blank_file };

    ghost blank_is_free = { λ _. refl };

    fn live(&self) -> bool {
        self.live
    }

    fn blank(&self) -> FileRecord {
        zero_file()
    }
}
