//! The pockets of the holders.
ghost use Rattle.script.specs.Pockets.{capability_in, empty_pockets, pockets_with};
ghost use Rattle.std.specs.Prelude.{◌≡◌};

use holder::Capability;
use lines::{LineRefusal, Pocket};

/// Eight pockets for each of eight holders, empty or with a capability.
#[derive(Drop)]
pub struct Pockets {
    places: [Option<Capability>; 64],
}

impl Pockets {
    pub(crate) fn empty() -> Pockets
        ensures { result.places ≡ empty_pockets }
    {
        Pockets { places: [None; 64] }
    }

    /// The capability in a pocket. Refuses an empty pocket at its word.
    pub(crate) fn held(&self, pocket: Pocket) -> Result<Capability, LineRefusal>
        ensures { result ≡ capability_in self.now.places pocket }
    {
        match self.places.get(usize::from(pocket.index)) {
            Some(Some(capability)) => Ok(*capability),
            _ => Err(LineRefusal::EmptyPocket(pocket.number)),
        }
    }

    /// Puts a capability into a pocket.
    pub(crate) fn put(&mut self, pocket: Pocket, capability: Capability)
        ensures { self.new.places ≡ pockets_with self.old.places pocket capability }
    {
        let index = usize::from(pocket.index);
        if index < self.places.len() {
            self.places[index] = Some(capability);
        }
    }
}
