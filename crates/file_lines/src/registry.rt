//! A registry: a store in which runs are filed, each with the next secret.
ghost use Rattle.file_lines.specs.Registry.{action_outcome, filing_outcome, next, opened_state, registry_opening, reader_of, reading_reply, registry_state, revoking_outcome};
ghost use Rattle.memory.specs.Held.{content};
ghost use Rattle.std.specs.Prelude.{◌≡◌};
ghost use Rattle.store.specs.Outcomes.{told_as};
ghost use Rattle.store.specs.State.{kept_of};
ghost use Rattle.store.specs.Read.{shown_bytes};
ghost use Rattle.store.specs.Requests.{granted, the_bytes};

use crate::secrets::next_number;
use family::CommutingFamily;
use holder::{Capability, HolderRefusal, Mask, Port};
use memory::Memory;
use runs::{Gate, open};
use secret::{SETS, Secret};
use store::{Opened, Store, StoreRefusal};

/// The port of the store.
const PORT: Port = Port { bytes: *b"PUMP01" };

/// The right to read, and no other.
const READING: Mask = Mask { bits: 1 };

/// A store with its owner capability, and the number that last became a secret.
#[derive(Drop)]
pub(crate) struct Registry<F> {
    store: Store<F>,
    owner: Capability,
    last: u64,
}

impl<F: CommutingFamily + Drop> Registry<F> {
    /// Opens a store over this memory, by the call that carries the law of runs.
    pub(crate) fn open(
        family: F,
        secret: u64,
        memory: &mut Memory,
    ) -> Result<Registry<F>, StoreRefusal>
        ensures { opened_state F.meaning result memory.new
            ≡ registry_opening (F.meaning family) secret (content memory.old) }
    {
        let gate = Gate {
            family,
            port: PORT,
            secret: Secret::new(secret),
        };
        let Opened { store, owner } = open(gate, memory, &mut [0; SETS])?;
        Ok(Registry {
            store,
            owner,
            last: secret,
        })
    }

    /// The capability of the store itself.
    pub(crate) fn owner(&self) -> Capability
        ensures { result ≡ self.now.owner }
    {
        self.owner
    }

    /// The number of the next secret.
    fn next(&self) -> u64
        ensures { result ≡ next (kept_of F.meaning self.now.store) self.now.last }
    {
        next_number(self.store.family(), self.last)
    }

    /// Files a run, and returns its owner capability.
    pub(crate) fn file(
        &mut self,
        memory: &mut Memory,
        bytes: &[u8],
    ) -> Result<Capability, StoreRefusal>
        ensures { action_outcome (told_as granted result)
            (registry_state F.meaning self.new memory.new)
            ≡ filing_outcome (registry_state F.meaning self.old memory.old) bytes.now }
    {
        self.last = self.next();
        let secret = Secret::new(self.last);
        self.store
            .create_file(memory, self.owner, bytes, secret, &mut [0; SETS])
    }

    /// A run's capability, restricted to reading.
    #[tactic(auto, unfolding(crate::specs::Registry::reader_of))]
    pub(crate) fn restrict(&self, run: Capability) -> Result<Capability, HolderRefusal>
        ensures { result ≡ reader_of (kept_of F.meaning self.now.store) run }
    {
        run.thin_to(self.store.family(), READING)
    }

    /// The bytes of a run.
    #[tactic(auto, unfolding(crate::specs::Registry::reading_reply))]
    pub(crate) fn read<'a>(
        &self,
        memory: &'a Memory,
        run: Capability,
    ) -> Result<&'a [u8], StoreRefusal>
        ensures { told_as the_bytes (shown_bytes result)
            ≡ reading_reply (registry_state F.meaning self.now memory.now) run }
    {
        self.store.read(memory, run)
    }

    /// Gives a run another secret, which revokes all that was handed out for it. Returns its new
    /// owner capability.
    pub(crate) fn revoke(
        &mut self,
        memory: &mut Memory,
        run: Capability,
    ) -> Result<Capability, StoreRefusal>
        ensures { action_outcome (told_as granted result)
            (registry_state F.meaning self.new memory.new)
            ≡ revoking_outcome (registry_state F.meaning self.old memory.old) run }
    {
        self.last = self.next();
        let secret = Secret::new(self.last);
        self.store.revoke(memory, run, secret, &mut [0; SETS])
    }
}
