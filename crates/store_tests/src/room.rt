//! Memory of a few records, to lend to a store.
use holder::{Capability, Check, Mask, Object, Port, Rights};
use memory::{DirectoryRecord, FileRecord, Masks, Row};
use secret::Secret;

/// Three file records, two directory records, their rows, and sixteen bytes.
#[derive(Clone, Copy)]
pub struct SmallRoom {
    pub files: [FileRecord; 3],
    pub directories: [DirectoryRecord; 2],
    pub rows: [Row; 32],
    pub area: [u8; 16],
}

/// A file that lies nowhere in the area.
pub fn old_file() -> FileRecord {
    FileRecord {
        live: true,
        secret: Secret::new(9),
        start: 9,
        length: 99,
    }
}

/// A directory with more rows than there can be.
pub fn old_directory() -> DirectoryRecord {
    DirectoryRecord {
        live: true,
        secret: Secret::new(9),
        count: 99,
    }
}

/// The three masks of these bits.
pub fn masks(works: u8, inspector: u8, buyer: u8) -> Masks {
    Masks {
        works: Mask { bits: works },
        inspector: Mask { bits: inspector },
        buyer: Mask { bits: buyer },
    }
}

/// Masks that show every right.
pub const OPEN: Masks = Masks {
    works: Mask { bits: 255 },
    inspector: Mask { bits: 255 },
    buyer: Mask { bits: 255 },
};

/// A row of another store, with a name of three bytes.
pub fn old_row() -> Row {
    Row {
        length: 3,
        name: [9; 24],
        capability: Capability {
            port: Port { bytes: [9; 6] },
            object: Object::new(0x09_09_09).unwrap(),
            rights: Rights { bits: 9 },
            check: Check::new(0x09_09_09_09_09_09).unwrap(),
        },
        masks: masks(9, 9, 9),
    }
}

/// Whether two rows hold the same in every field.
pub fn are_same_rows(a: &Row, b: &Row) -> bool {
    a.length == b.length
        && a.name == b.name
        && a.capability == b.capability
        && a.masks.works == b.masks.works
        && a.masks.inspector == b.masks.inspector
        && a.masks.buyer == b.masks.buyer
}

impl SmallRoom {
    /// Memory with something in it everywhere.
    pub fn new() -> SmallRoom {
        SmallRoom {
            files: [old_file(); 3],
            directories: [old_directory(); 2],
            rows: [old_row(); 32],
            area: [9; 16],
        }
    }

    /// Whether two rooms hold the same in every field.
    pub fn is_same(&self, other: &SmallRoom) -> bool {
        let files = self.files.iter().zip(&other.files).all(|(x, y)| {
            x.live == y.live && x.secret == y.secret && x.start == y.start && x.length == y.length
        });
        let directories = self.directories.iter().zip(&other.directories).all(|(x, y)| x.live
            == y.live
            && x.secret == y.secret
            && x.count == y.count);
        let rows = self
            .rows
            .iter()
            .zip(&other.rows)
            .all(|(x, y)| are_same_rows(x, y));
        files && directories && rows && self.area == other.area
    }
}

/// Lends a room to a store.
///
/// No method can do this: the borrow checker does not cover one that lends four parts of its
/// `&mut self`.
#[macro_export]
macro_rules! lend {
    ($room:ident) => {
        memory::Memory {
            files: &mut $room.files,
            directories: &mut $room.directories,
            rows: &mut $room.rows,
            area: &mut $room.area,
        }
    };
}
