//! Slices of records that are lent to a table.
ghost use Rattle.std.specs.Prelude.{◌≡◌, List};

use crate::record::Record;

/// A lent slice of records, shared or not: a table over a shared one only reads.
pub trait Lent {
    type Record: Record;

    /// The records that the slice holds.
    ghost held: { Self → List Self.Record };

    /// The records to read.
    fn as_slice(&self) -> &[Self::Record]
        ensures { result.now ≡ held self.now };
}

impl<R: Record> Lent for &[R] {
    type Record = R;

    ghost held = { λ s. s.now };

    fn as_slice(&self) -> &[R] {
        *self
    }
}

impl<R: Record> Lent for &mut [R] {
    type Record = R;

    ghost held = { λ s. s.now };

    fn as_slice(&self) -> &[R] {
        &**self
    }
}
