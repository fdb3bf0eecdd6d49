//! A store with its owner capability, and capabilities to present to it.
use admission::Denial;
use family::{CommutingFamily, FamilyRefusal, Powers};
use holder::{Capability, Check, Mask, Object, Port};
use memory::{Masks, Memory};
use runs::{Gate, open};
use secret::{SETS, Secret};
use std::test::Fail;
use store::{Answer, Opened, Request, Store, StoreRefusal};

pub const PORT: Port = Port {
    bytes: [0x50, 0x55, 0x4d, 0x50, 0x30, 0x31],
};

/// A store with its owner capability.
///
/// Each call brings a scratch of its own. None has a contract, so that a test of many calls is
/// quick to prove.
#[derive(Drop)]
pub struct Bench<F> {
    pub store: Store<F>,
    pub owner: Capability,
}

impl<F: CommutingFamily + Drop> Bench<F> {
    /// Opens a store over this memory.
    pub fn new(gate: Gate<F>, memory: &mut Memory) -> Result<Bench<F>, StoreRefusal> {
        let Opened { store, owner } = open(gate, memory, &mut [9; SETS])?;
        Ok(Bench { store, owner })
    }

    pub fn file(
        &mut self,
        memory: &mut Memory,
        bytes: &[u8],
        secret: u64,
    ) -> Result<Capability, StoreRefusal> {
        let secret = Secret::new(secret);
        self.store
            .create_file(memory, self.owner, bytes, secret, &mut [9; SETS])
    }

    pub fn directory(
        &mut self,
        memory: &mut Memory,
        secret: u64,
    ) -> Result<Capability, StoreRefusal> {
        let secret = Secret::new(secret);
        self.store
            .create_directory(memory, self.owner, secret, &mut [9; SETS])
    }

    pub fn revoke(
        &mut self,
        memory: &mut Memory,
        object: Capability,
        secret: u64,
    ) -> Result<Capability, StoreRefusal> {
        let secret = Secret::new(secret);
        self.store.revoke(memory, object, secret, &mut [9; SETS])
    }

    pub fn destroy(&self, memory: &mut Memory, object: Capability) -> Result<(), StoreRefusal> {
        self.store.destroy(memory, object)
    }

    pub fn read<'a>(&self, memory: &'a Memory, file: Capability) -> Result<&'a [u8], StoreRefusal> {
        self.store.read(memory, file)
    }

    pub fn size(&self, memory: &Memory, file: Capability) -> Result<u64, StoreRefusal> {
        self.store.size(memory, file)
    }

    pub fn enter(
        &self,
        memory: &mut Memory,
        directory: Capability,
        name: &[u8],
        entry: Capability,
        masks: Masks,
    ) -> Result<(), StoreRefusal> {
        self.store.enter(memory, directory, name, entry, masks)
    }

    pub fn remove(
        &self,
        memory: &mut Memory,
        directory: Capability,
        name: &[u8],
    ) -> Result<(), StoreRefusal> {
        self.store.remove(memory, directory, name)
    }

    pub fn row<'a>(
        &self,
        memory: &'a Memory,
        directory: Capability,
        n: u64,
    ) -> Result<&'a [u8], StoreRefusal> {
        self.store.row(memory, directory, n)
    }

    pub fn name<'a>(
        &self,
        memory: &'a Memory,
        directory: Capability,
        object: Object,
    ) -> Result<&'a [u8], StoreRefusal> {
        self.store.name(memory, directory, object)
    }

    pub fn look_up(
        &self,
        memory: &Memory,
        directory: Capability,
        name: &[u8],
    ) -> Result<Capability, StoreRefusal> {
        self.store.look_up(memory, directory, name)
    }

    pub fn walk(
        &self,
        memory: &Memory,
        directory: Capability,
        path: &[u8],
    ) -> Result<Capability, StoreRefusal> {
        self.store.walk(memory, directory, path)
    }

    pub fn serve(
        &mut self,
        memory: &mut Memory,
        capability: Capability,
        request: Request,
    ) -> Result<Answer, StoreRefusal> {
        self.store
            .serve(memory, capability, request, &mut [9; SETS])
    }
}

/// The modulus of the store of powers.
pub const MODULUS: u64 = 2_147_483_647;

/// A store of powers, with secret 7.
pub fn gate() -> Result<Gate<Powers>, FamilyRefusal> {
    Ok(Gate {
        family: Powers::new(MODULUS)?,
        port: PORT,
        secret: Secret::new(7),
    })
}

/// The capability, thinned to a mask in the store of powers.
pub fn thinned(capability: Capability, bits: u8) -> Result<Capability, Fail> {
    Ok(capability.thin_to(&Powers::new(MODULUS)?, Mask { bits })?)
}

/// Capabilities that the store of powers does not accept, each with the denial for it.
pub fn not_accepted(capability: Capability) -> [(Capability, Denial); 4] {
    let port = Port { bytes: [9; 6] };
    let object = Object::new(0x01_00_01).unwrap();
    let check = Check::new(0).unwrap();
    let past = Check::new(0xff_ff_ff_ff_ff_ff).unwrap();
    [
        (Capability { port, ..capability }, Denial::WrongPort),
        (
            Capability {
                object,
                ..capability
            },
            Denial::NoSuchObject,
        ),
        (
            Capability {
                check,
                ..capability
            },
            Denial::WrongCheck,
        ),
        (
            Capability {
                check: past,
                ..capability
            },
            Denial::WrongCheck,
        ),
    ]
}
