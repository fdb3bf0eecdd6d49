//! Opening the store of a script.
ghost use Rattle.memory.specs.Held.{content};
ghost use Rattle.memory.specs.Loans.{SameLoan};
ghost use Rattle.refusal.specs.Chains.{and_then, refused_as};
ghost use Rattle.script.specs.CodeStates.{begun_as};
ghost use Rattle.script.specs.Deeds.{secret_with};
ghost use Rattle.script.specs.Opening.{first_outcome, first_pocket};
ghost use Rattle.script.specs.Tasks.{clean};
ghost use Rattle.std.specs.Prelude.{◌≡◌, Ok};
ghost use Rattle.store.specs.Open.{opening};
ghost use Rattle.store.specs.Errors.{store_refusal};

use crate::pockets::Pockets;
use crate::session::Session;
use family::CommutingFamily;
use holder::{Capability, Port};
use lines::Pocket;
use memory::Memory;
use refusal::Refusal;
use runs::{Gate, open};
use secret::{SETS, Secret};
use store::Opened;

/// Pocket 0 of holder A.
const FIRST_POCKET: Pocket = Pocket {
    index: 0,
    number: 0,
};

/// A session, and the owner capability of its store.
#[derive(Drop)]
pub struct Begun<F> {
    pub(crate) session: Session<F>,
    pub(crate) owner: Capability,
}

impl<F: CommutingFamily + Drop> Session<F> {
    /// Opens a store by the call that carries the law of runs, and puts its owner capability into
    /// the first pocket.
    pub(crate) fn open(
        family: F,
        port: [u8; 6],
        secret: u64,
        memory: &mut Memory,
    ) -> Result<Begun<F>, Refusal>
        ensures outcome { begun_as F.meaning memory.new result
            ≡ and_then
            (refused_as store_refusal
            (opening (F.meaning family) (record { bytes = port }) (secret_with secret)
            (content memory.old) clean))
            (λ opened. Ok (first_outcome opened)) }
        ensures loan { SameLoan memory.old memory.new }
    {
        let gate = Gate {
            family,
            port: Port { bytes: port },
            secret: Secret::new(secret),
        };
        let Opened { store, owner } = open(gate, memory, &mut [0; SETS])?;
        let mut pockets = Pockets::empty();
        pockets.put(FIRST_POCKET, owner);
        let session = Session { store, pockets };
        Ok(Begun { session, owner })
    }
}
