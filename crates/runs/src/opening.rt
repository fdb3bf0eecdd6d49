//! Opening a store whose every run keeps the law of runs.
ghost use Rattle.memory.specs.Held.{content};
ghost use Rattle.memory.specs.Loans.{SameLoan};
ghost use Rattle.runs.specs.Law.{LawOfRuns};
ghost use Rattle.runs.specs.Opening.{first_grant, start_state};
ghost use Rattle.runs.specs.RequestLaws.{RequestLaws};
ghost use Rattle.std.specs.Prelude.{◌≡◌, IfOk, IfErr};
ghost use Rattle.store.specs.Open.{opened_as, memory_after, opening, scratch_opened};

use admission::Gate;
use family::CommutingFamily;
use memory::Memory;
use store::{Opened, Store, StoreRefusal};

/// Opens a store: wipes all memory, and gives the store with the owner capability of object 0.
pub fn open<F: CommutingFamily + Drop>(
    gate: Gate<F>,
    memory: &mut Memory,
    scratch: &mut [u64],
) -> Result<Opened<F>, StoreRefusal>
    ensures answer { opened_as F.meaning (content memory.new) result
        ≡ opening (F.meaning gate.family) gate.port gate.secret (content memory.old) scratch.old }
    ensures memory { content memory.new
        ≡ memory_after (content memory.old)
        (opening (F.meaning gate.family) gate.port gate.secret (content memory.old)
        scratch.old) }
    ensures unchanged { IfErr result (λ _. content memory.new ≡ content memory.old) }
    ensures scratch { scratch.new ≡ scratch_opened (content memory.old) scratch.old }
    ensures loan { SameLoan memory.old memory.new }
    ensures requests { RequestLaws }
    ensures law { IfOk result
        (λ opened. LawOfRuns (F.meaning gate.family) (first_grant opened gate.secret)
        (start_state F.meaning opened (content memory.new))) }
{
    Store::open(gate, memory, scratch)
}
