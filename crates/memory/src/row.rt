//! A row of a directory.
ghost use Rattle.memory.specs.Names.{name_of};
ghost use Rattle.memory.specs.Wiped.{zero_row};
ghost use Rattle.std.specs.Prelude.{◌≡◌};

use holder::{Capability, Check, Mask, Object, Port, Rights};

/// The three columns of rights of a row.
#[derive(Clone, Copy, PartialEq, Eq, Hash, Debug)]
pub struct Masks {
    pub works: Mask,
    pub inspector: Mask,
    pub buyer: Mask,
}

/// A row as it lies in memory: the length and bytes of its name, its capability and its masks.
///
/// A caller may bring any length.
#[derive(Clone, Copy, PartialEq, Eq, Hash, Debug)]
pub struct Row {
    pub length: u64,
    pub name: [u8; 24],
    pub capability: Capability,
    pub masks: Masks,
}

/// A row of zeros.
pub fn zero_row() -> Row
    ensures { result ≡ zero_row }
{
    let none = Mask { bits: 0 };
    Row {
        length: 0,
        name: [0; 24],
        capability: Capability {
            port: Port { bytes: [0; 6] },
            object: Object::new(0).unwrap(),
            rights: Rights { bits: 0 },
            check: Check::new(0).unwrap(),
        },
        masks: Masks {
            works: none,
            inspector: none,
            buyer: none,
        },
    }
}

impl Row {
    /// The name: as many of its bytes as the row says, and no more than there are.
    pub fn name(&self) -> &[u8]
        ensures { result.now ≡ name_of self.now }
    {
        &self.name[..self.length.min(24) as usize]
    }
}
