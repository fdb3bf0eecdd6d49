//! Opening a store over memory.
ghost use Rattle.memory.specs.Held.{content};
ghost use Rattle.memory.specs.Loans.{SameLoan};
ghost use Rattle.secret.specs.Fitness.{is_fit};
ghost use Rattle.store.specs.Kept.{grant_of};
ghost use Rattle.store.specs.Open.{memory_after, new_store, opened_as, opening, opening_with, scratch_opened};
ghost use Rattle.store.specs.Sizes.{are_sizes_lawful};
ghost use Rattle.store.specs.State.{kept_of};
ghost use Rattle.std.specs.Prelude.{◌≡◌, true, IfErr};

use crate::error::StoreRefusal;
use crate::grant::check_fit;
use crate::places::Places;
use crate::store::Store;
use admission::Gate;
use family::CommutingFamily;
use holder::Capability;
use memory::{Memory, wipe};
use secret::{SETS, Scratch};

/// A new store, and the owner capability of object 0.
#[derive(Drop)]
pub struct Opened<F> {
    pub store: Store<F>,
    pub owner: Capability,
}

/// Whether memory has sizes within the limits.
fn sizes_lawful(memory: &Memory) -> bool
    ensures { result ≡ are_sizes_lawful (content memory.now) }
{
    let files = memory.files.len();
    let directories = memory.directories.len();
    (1..=256).contains(&files)
        && (1..=64).contains(&directories)
        && memory.rows.len() == 16 * directories
        && memory.area.len() <= 1_048_576
}

impl<F: CommutingFamily + Drop> Store<F> {
    /// A store over memory of these sizes, with fit secret.
    fn with_gate(gate: Gate<F>, memory: &Memory) -> Opened<F>
        requires sizes { are_sizes_lawful (content memory.now) ≡ true }
        requires fit { is_fit (F.meaning gate.family) gate.secret.value ≡ true }
        ensures store { kept_of F.meaning result.store
            ≡ new_store (F.meaning gate.family) gate.port gate.secret (content memory.now) }
        ensures owner { result.owner
            ≡ grant_of (new_store (F.meaning gate.family) gate.port gate.secret
            (content memory.now)) 0 gate.secret }
    {
        let secret = gate.secret;
        let store = Store {
            gate,
            files: Places {
                size: memory.files.len(),
                next: 0,
            },
            directories: Places {
                size: memory.directories.len(),
                next: 0,
            },
            area: memory.area.len(),
        };
        let owner = store.grant(0, secret);
        Opened { store, owner }
    }

    /// Opens where sizes are right.
    fn try_open(
        gate: Gate<F>,
        memory: &mut Memory,
        numbers: &mut [u64; SETS],
    ) -> Result<Opened<F>, StoreRefusal>
        requires { are_sizes_lawful (content memory.old) ≡ true }
        ensures answer { opened_as F.meaning (content memory.new) result
            ≡ opening_with (F.meaning gate.family) gate.port gate.secret (content memory.old) }
        ensures memory { (content memory.new)
            ≡ memory_after (content memory.old)
            (opening_with (F.meaning gate.family) gate.port gate.secret (content memory.old)) }
        ensures unchanged { IfErr result (λ _. content memory.new ≡ content memory.old) }
        ensures loan { SameLoan memory.old memory.new }
    {
        check_fit(&gate.family, gate.secret, numbers)?;
        let opened = Store::with_gate(gate, memory);
        wipe(memory);
        Ok(opened)
    }

    /// Opens a store: wipes all memory, and gives the store with the owner capability of object 0.
    pub fn open(
        gate: Gate<F>,
        memory: &mut Memory,
        scratch: &mut [u64],
    ) -> Result<Opened<F>, StoreRefusal>
        ensures answer { opened_as F.meaning (content memory.new) result
            ≡ opening (F.meaning gate.family) gate.port gate.secret (content memory.old)
            scratch.old }
        ensures memory { (content memory.new)
            ≡ memory_after (content memory.old)
            (opening (F.meaning gate.family) gate.port gate.secret (content memory.old)
            scratch.old) }
        ensures unchanged { IfErr result (λ _. content memory.new ≡ content memory.old) }
        ensures scratch { scratch.new ≡ scratch_opened (content memory.old) scratch.old }
        ensures loan { SameLoan memory.old memory.new }
    {
        if !sizes_lawful(memory) || scratch.len() != SETS {
            return Err(StoreRefusal::WrongSizes);
        }
        // Made here and not by a function, as in every call that has a guard.
        let guard = Scratch { numbers: scratch };
        Store::try_open(gate, memory, guard.numbers.as_mut_array().unwrap())
    }
}
