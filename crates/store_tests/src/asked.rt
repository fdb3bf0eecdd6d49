//! The requests to a directory as plain values.
use crate::bench::Bench;
use crate::room::OPEN;
use admission::Denial;
use family::Powers;
use holder::Capability;
use memory::Memory;
use store::StoreRefusal;

/// A request to a directory.
#[derive(Clone, Copy, Debug)]
pub enum Asked {
    Enter,
    Remove,
    Row,
    Name,
    LookUp,
    Walk,
}

pub static ALL: [Asked; 6] = [
    Asked::Enter,
    Asked::Remove,
    Asked::Row,
    Asked::Name,
    Asked::LookUp,
    Asked::Walk,
];

impl Asked {
    /// The rights of which the request needs one.
    pub fn rights(self) -> u8 {
        match self {
            Asked::Enter | Asked::Remove => 8,
            Asked::Row | Asked::Name | Asked::LookUp | Asked::Walk => 7,
        }
    }

    /// The place of a refusal of the capability presented.
    pub fn place(self) -> u8 {
        match self {
            Asked::Walk => 1,
            _ => 0,
        }
    }

    pub fn denied(self, denial: Denial) -> Option<StoreRefusal> {
        Some(StoreRefusal::Denied(denial, self.place()))
    }
}

/// The refusal of a request for the row of a name, or for a new one of that name, if there is one.
pub fn refused(
    bench: &Bench<Powers>,
    memory: &mut Memory,
    asked: Asked,
    shown: Capability,
    name: &[u8],
    entry: Capability,
) -> Option<StoreRefusal> {
    match asked {
        Asked::Enter => bench.enter(memory, shown, name, entry, OPEN).err(),
        Asked::Remove => bench.remove(memory, shown, name).err(),
        Asked::Row => bench.row(memory, shown, 0).err(),
        Asked::Name => bench.name(memory, shown, entry.object).err(),
        Asked::LookUp => bench.look_up(memory, shown, name).err(),
        Asked::Walk => bench.walk(memory, shown, name).err(),
    }
}
