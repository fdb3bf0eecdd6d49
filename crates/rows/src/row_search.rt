//! Searching rows: for a name, and for an object.
ghost use Rattle.holder.specs.Bytes.{number};
ghost use Rattle.rows.specs.Search.{IsLastPlace, place_of_object, place_of_name};
ghost use Rattle.std.specs.Prelude.{◌≡◌, ◌<◌, IfSome, length};

use holder::Object;
use memory::{Row, are_same_names};

/// The place of the first row of this name.
pub fn search(rows: &[Row], name: &[u8]) -> Option<usize>
    ensures value { result ≡ place_of_name name.now rows.now }
    ensures within { IfSome result (λ p. p < length rows.now) }
{
    rows.iter().position(|row| are_same_names(row.name(), name))
}

/// Searches from behind. The clauses of `last_for` follow from its value.
fn last_place(rows: &[Row], object: Object) -> Option<usize>
    ensures { result ≡ place_of_object object.value rows.now }
{
    let mut rest = rows;
    while let Some((row, earlier)) = rest.split_last() {
        if row.capability.object.number() == object.number() {
            return Some(earlier.len());
        }
        rest = earlier;
    }
    None
}

/// The place of the last row that holds a capability for the object, which is the one entered last.
pub fn last_for(rows: &[Row], object: Object) -> Option<usize>
    ensures value { result ≡ place_of_object object.value rows.now }
    ensures words { IsLastPlace object.value rows.now result }
    ensures within { IfSome result (λ p. p < length rows.now) }
{
    last_place(rows, object)
}
