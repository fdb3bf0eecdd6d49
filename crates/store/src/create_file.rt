//! Creating files.
ghost use Rattle.memory.specs.Held.{content};
ghost use Rattle.memory.specs.Loans.{SameLoan};
ghost use Rattle.std.specs.Prelude.{◌≡◌, ◌+◌, ◌<◌, ◌≤◌, [], ◌++◌, length, drop, IfOk, IfErr};
ghost use Rattle.store.specs.CreateFile.{new_file, spot_for};
ghost use Rattle.store.specs.Inside.{IsSpotFor, attempt_of};
ghost use Rattle.store.specs.Outcomes.{outcome, outcome_by, told_as};
ghost use Rattle.store.specs.Parts.{with_part};
ghost use Rattle.store.specs.Requests.{create_file, granted};
ghost use Rattle.store.specs.Serve.{outcome_of};
ghost use Rattle.store.specs.State.{state};

use crate::error::StoreRefusal;
use crate::grant::file_number;
use crate::request::Update;
use crate::store::Store;
use family::CommutingFamily;
use holder::Capability;
use memory::{Memory, place};
use secret::{SETS, Scratch, Secret};

/// Where a new file goes: its place in the table, and its start in the area.
#[derive(Clone, Copy)]
pub struct Spot {
    pub place: usize,
    pub start: u64,
}

/// Copies the bytes to the front of a part of the area.
///
/// Whoever copies is lent that part alone.
fn copy_to_front(part: &mut [u8], bytes: &[u8])
    requires { length bytes.now ≤ length part.old }
    ensures { part.new ≡ bytes.now ++ drop (length bytes.now) part.old }
{
    let length = bytes.len();
    part[0..length].copy_from_slice(bytes);
}

/// Lends the part of the area from a start on to be written.
fn write_bytes(area: &mut [u8], start: usize, bytes: &[u8])
    requires { start + length bytes.now ≤ length area.old }
    ensures { area.new ≡ with_part area.old start bytes.now }
{
    copy_to_front(&mut area[start..], bytes);
}

impl<F: CommutingFamily> Store<F> {
    /// Where a new file of so many bytes goes.
    fn spot(&self, memory: &Memory, len: u64) -> Result<Spot, StoreRefusal>
        ensures spot { result ≡ spot_for (state F.meaning self.now memory.now) len }
        ensures there { IfOk result (IsSpotFor (state F.meaning self.now memory.now) len) }
    {
        let free = self
            .files
            .claim(memory.files)
            .ok_or(StoreRefusal::NoFreeRecord)?;
        let area = memory.area.len() as u64;
        let start = place(memory.files, area, len).ok_or(StoreRefusal::NoStart)?;
        Ok(Spot { place: free, start })
    }

    /// Writes a new file: its bytes, and its record.
    fn write_file(&mut self, memory: &mut Memory, spot: Spot, bytes: &[u8], secret: Secret)
        requires place { spot.place < length memory.old.files.now }
        requires part { spot.start + length bytes.now ≤ length memory.old.area.now }
        ensures after { state F.meaning self.new memory.new
            ≡ (new_file (state F.meaning self.old memory.old) bytes.now secret spot).after }
        ensures loan { SameLoan memory.old memory.new }
    {
        write_bytes(memory.area, spot.start as usize, bytes);
        let old = memory.files[spot.place];
        let new = old.made(secret, spot.start, bytes.len() as u64);
        self.files.give(memory.files, spot.place, new);
    }

    /// Creates a file, where the scratch has its size.
    fn try_file(
        &mut self,
        memory: &mut Memory,
        capability: Capability,
        bytes: &[u8],
        secret: Secret,
        numbers: &mut [u64; SETS],
    ) -> Result<Capability, StoreRefusal>
        ensures outcome { outcome (told_as granted result) (state F.meaning self.new memory.new) []
            ≡ outcome_by (state F.meaning self.old memory.old) []
            (attempt_of (state F.meaning self.old memory.old) capability
            (create_file bytes.now secret)) }
        ensures loan { SameLoan memory.old memory.new }
    {
        let rule = Update::CreateFile { bytes, secret }.rule();
        let target = self.admit(memory, capability, rule)?;
        self.check_secret(memory, target, rule.secret, numbers)?;
        let spot = self.spot(memory, bytes.len() as u64)?;
        let grant = self.grant(file_number(spot.place), secret);
        self.write_file(memory, spot, bytes, secret);
        Ok(grant)
    }

    /// Creates a file from bytes and a secret, and gives its owner capability.
    pub fn create_file(
        &mut self,
        memory: &mut Memory,
        capability: Capability,
        bytes: &[u8],
        secret: Secret,
        scratch: &mut [u64],
    ) -> Result<Capability, StoreRefusal>
        ensures outcome { outcome (told_as granted result)
            (state F.meaning self.new memory.new) scratch.new
            ≡ outcome_of (state F.meaning self.old memory.old) capability
            (create_file bytes.now secret) scratch.old }
        ensures unchanged { IfErr result (λ _. state F.meaning self.new memory.new
            ≡ state F.meaning self.old memory.old) }
        ensures loan { SameLoan memory.old memory.new }
    {
        self.check_sizes(memory, scratch)?;
        // The guard is made in each call that has one. A function that gives it in an Option cannot
        // say what a refusal leaves in the scratch. What a closure changes through a borrow is not
        // known after it.
        let guard = Scratch { numbers: scratch };
        let numbers = guard.numbers.as_mut_array().unwrap();
        self.try_file(memory, capability, bytes, secret, numbers)
    }
}
