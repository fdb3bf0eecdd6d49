//! Any request to a store, and any answer.
use holder::{Capability, Object};
use memory::Masks;
use secret::Secret;

/// Reads, and changes nothing.
#[derive(Clone, Copy)]
pub enum Query<'a> {
    /// A file's bytes.
    Read,
    /// A file's length.
    Size,
    /// What a name leads to in a directory.
    LookUp { name: &'a [u8] },
    /// What the names of a path lead to, one after the other.
    Walk { path: &'a [u8] },
    /// The name of the row at a place of a directory, counted from 0.
    Row { n: u64 },
    /// The name of the row of a directory that was entered last with an object.
    Name { object: Object },
}

/// Changes the store or its memory.
#[derive(Clone, Copy)]
pub enum Update<'a> {
    /// A file from bytes and a secret.
    CreateFile {
        bytes: &'a [u8],
        secret: Secret,
    },
    /// A directory from a secret.
    CreateDirectory {
        secret: Secret,
    },
    /// A row more in a directory.
    Enter {
        name: &'a [u8],
        entry: Capability,
        masks: Masks,
    },
    /// A row less in a directory.
    Remove {
        name: &'a [u8],
    },
    /// An object's end.
    Destroy,
    /// Another secret for an object.
    Revoke {
        secret: Secret,
    },
}

/// What is asked, apart from the capability presented.
///
/// Enums and no closures: the requests are a closed set. One definition over them says what each
/// comes to.
#[derive(Clone, Copy)]
pub enum Request<'a> {
    Query(Query<'a>),
    Update(Update<'a>),
}

/// The answer to a request.
///
/// `Part` and `Name` hold positions, not references: while an answer borrows from memory, no
/// contract can describe memory after the call.
#[derive(Clone, Copy)]
pub enum Answer {
    /// The owner capability granted.
    Granted(Capability),
    /// So many bytes of the area, from a start on: those of the file presented.
    Part { start: u64, length: u64 },
    /// The capability that a look-up or a walk found.
    Found(Capability),
    /// The name of the row at this place of all rows, a counted one of the directory presented.
    Name { row: usize },
    /// A length.
    Length(u64),
    /// It is done.
    Done,
}
