//! The lowest start for a new file.
ghost use Rattle.std.specs.Prelude.{◌≡◌};
ghost use Rattle.memory.specs.Placement.{IsLowestStart, lowest_start};

use crate::file_record::FileRecord;
use crate::part::Part;

/// Tries start 0, then the end of each file in the way.
fn first_clear(files: &[FileRecord], area: u64, length: u64) -> Option<u64>
    ensures { result ≡ lowest_start files.now area length }
{
    if length == 0 {
        return Some(0);
    }
    let last = area.checked_sub(length)?;
    let mut start = 0;
    while start <= last {
        let part = Part { start, length };
        match files.iter().find(|file| !part.is_clear_of(file)) {
            None => return Some(start),
            Some(file) => start = file.start.saturating_add(file.length),
        }
    }
    None
}

/// The lowest start where a file of this length lies in the area and meets no live file.
pub fn place(files: &[FileRecord], area: u64, length: u64) -> Option<u64>
    ensures value { result ≡ lowest_start files.now area length }
    ensures words { IsLowestStart files.now area length result }
{
    first_clear(files, area, length)
}
