//! The memory that a caller lends to each request.
ghost use Rattle.memory.specs.Held.{content};
ghost use Rattle.memory.specs.Loans.{SameLoan};
ghost use Rattle.memory.specs.Wiped.{zeros_like};
ghost use Rattle.std.specs.Prelude.{◌≡◌};

use crate::directory_record::{DirectoryRecord, zero_directory};
use crate::file_record::{FileRecord, zero_file};
use crate::row::{Row, zero_row};

/// File records, directory records, sixteen rows for each directory, and the area of bytes.
///
/// A call could put other slices in the fields. `SameLoan` says that it did not.
#[derive(Drop)]
pub struct Memory<'a> {
    pub files: &'a mut [FileRecord],
    pub directories: &'a mut [DirectoryRecord],
    pub rows: &'a mut [Row],
    pub area: &'a mut [u8],
}

/// Makes all memory zeros.
pub fn wipe(memory: &mut Memory)
    ensures value { content memory.new ≡ zeros_like (content memory.old) }
    ensures loan { SameLoan memory.old memory.new }
{
    memory.files.fill(zero_file());
    memory.directories.fill(zero_directory());
    memory.rows.fill(zero_row());
    memory.area.fill(0);
}
