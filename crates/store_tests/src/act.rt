//! Acts: requests to a store and looks at its memory, each with the answer wanted.
use memory::Masks;
use store::StoreRefusal;

/// The object of the capability given, by its number; or a size.
pub type Number = Result<u64, StoreRefusal>;

/// An answer without a value.
pub type Nothing = Result<(), StoreRefusal>;

/// A name, or the bytes of a file.
pub type Bytes = Result<&'static [u8], StoreRefusal>;

/// The capability found, by its place among those given.
pub type Found = Result<usize, StoreRefusal>;

/// An act. It names a capability by its place among those given; the owner capability of the store
/// has place 0. The last field holds the answer wanted.
#[derive(Clone, Copy)]
pub enum Act {
    File(&'static [u8], u64, Number),
    Directory(u64, Number),
    Revoke(usize, u64, Number),
    /// Gives the capability, thinned to a mask.
    Thin(usize, u8, Number),
    Destroy(usize, Nothing),
    Size(usize, Number),
    Read(usize, Bytes),
    Enter(usize, &'static [u8], usize, Masks, Nothing),
    /// Enters a capability under each of these names, with open masks.
    EnterAll(usize, &'static [&'static [u8]], usize),
    Remove(usize, &'static [u8], Nothing),
    Row(usize, u64, Bytes),
    /// The name of the object of a number.
    Name(usize, u64, Bytes),
    LookUp(usize, &'static [u8], Found),
    Walk(usize, &'static [u8], Found),
    /// The bits of a capability's rights.
    Rights(usize, u8),
    /// The number of a capability's check.
    Check(usize, u64),
    /// Two capabilities of the same sixteen bytes.
    Same(usize, usize),
    /// The size, asked for with the check of a number.
    SizeBy(usize, u64, Number),
    /// The first bytes of the area.
    Area(&'static [u8]),
    /// Where the record at a place says that its file begins.
    Start(usize, u64),
    /// The row at a place of all rows is zeros.
    Vacant(usize),
    /// The rows of a directory have these names, in this order, and no more.
    Names(usize, &'static [&'static [u8]]),
}
