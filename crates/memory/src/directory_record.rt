//! The record of a directory.
ghost use Rattle.memory.specs.Records.{blank_directory, made_directory, recounted_directory, renewed_directory, zero_directory};
ghost use Rattle.std.specs.Prelude.{◌≡◌, refl};

use secret::Secret;
use table::Record;

/// A directory: free, or live with its secret and the count of its rows.
///
/// A caller may bring any numbers, and soundness bounds the count of a free record too.
#[derive(Clone, Copy)]
pub struct DirectoryRecord {
    pub live: bool,
    pub secret: Secret,
    pub count: u64,
}

/// A directory record of zeros.
pub fn zero_directory() -> DirectoryRecord
    ensures { result ≡ zero_directory }
{
    DirectoryRecord {
        live: false,
        secret: Secret::new(0),
        count: 0,
    }
}

impl DirectoryRecord {
    /// A new directory without rows in the place of this record.
    pub fn made(self, secret: Secret) -> DirectoryRecord
        ensures { result ≡ made_directory self secret }
    {
        DirectoryRecord {
            live: true,
            secret,
            ..zero_directory()
        }
    }

    /// The same directory with another secret.
    pub fn renewed(self, secret: Secret) -> DirectoryRecord
        ensures { result ≡ renewed_directory self secret }
    {
        DirectoryRecord { secret, ..self }
    }

    /// The same directory with another count of rows.
    pub fn recounted(self, count: u64) -> DirectoryRecord
        ensures { result ≡ recounted_directory self count }
    {
        DirectoryRecord { count, ..self }
    }
}

impl Record for DirectoryRecord {
    ghost is_live = { λ d. d.live };

    ghost blank_of = { blank_directory };

    ghost blank_is_free = { λ _. refl };

    fn live(&self) -> bool {
        self.live
    }

    fn blank(&self) -> DirectoryRecord {
        zero_directory()
    }
}
