//! A new row, and the changes of rows.
ghost use Rattle.memory.specs.Names.{name_of};
ghost use Rattle.rows.specs.Changes.{with_gap_closed, with_gap_closed_if_there, row_of, with_last};
ghost use Rattle.std.specs.Prelude.{◌≡◌, ◌-◌, ◌<◌, [], ◌∷◌, ◌++◌, length, take};

use holder::Capability;
use memory::{Masks, Name, Row, zero_row};

/// The row of a name, with zeros behind the name.
pub fn row_of(name: Name, capability: Capability, masks: Masks) -> Row
    ensures value { result ≡ row_of name.entry.bytes.now capability masks }
    ensures name { name_of result ≡ name.entry.bytes.now }
{
    let name = name.bytes();
    let length = name.len();
    let mut bytes = [0; 24];
    bytes[..length].copy_from_slice(name);
    Row {
        length: length as u64,
        name: bytes,
        capability,
        masks,
    }
}

/// Moves each row behind a place down by one, and zeroes the last. Beyond the end nothing changes.
pub fn close_gap(rows: &mut [Row], place: usize)
    ensures value { rows.new ≡ with_gap_closed_if_there place rows.old }
    ensures there { place < length rows.old → rows.new ≡ with_gap_closed place rows.old }
    ensures size { length rows.new ≡ length rows.old }
{
    if place >= rows.len() {
        return;
    }
    rows.copy_within(place + 1.., place);
    put_last(rows, zero_row());
}

/// Writes a row in the place of the last one, if there is one.
pub fn put_last(rows: &mut [Row], row: Row)
    ensures value { rows.new ≡ with_last row rows.old }
    ensures there { 0 < length rows.old
        → rows.new ≡ take (length rows.old - 1) rows.old ++ row ∷ [] }
    ensures size { length rows.new ≡ length rows.old }
{
    let count = rows.len();
    if count > 0 {
        rows[count - 1] = row;
    }
}
