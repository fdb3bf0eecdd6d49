//! The test of soundness, part by part.
ghost use Rattle.std.specs.Prelude.{◌≡◌, ◌&&◌, Decides};
ghost use Rattle.memory.specs.Held.{content};
ghost use Rattle.memory.specs.Soundness.{are_files_apart, are_files_sound, are_all_rows_sound, are_secrets_below, is_sound};
ghost use Rattle.memory.specs.Words.{IsSound};

use crate::each_two::holds_of_each_two;
use crate::file_record::FileRecord;
use crate::memory::Memory;
use crate::row_test::RowTest;
use family::CommutingFamily;
use holder::Port;
use secret::Secret;

/// Whether live secrets are below the modulus.
fn secrets_below<F: CommutingFamily>(family: &F, memory: &Memory) -> bool
    ensures { result ≡ are_secrets_below (F.meaning family.now).modulus (content memory.now) }
{
    let is_below = |live: bool, secret: Secret| !live || secret.below(family);
    memory
        .files
        .iter()
        .all(|file| is_below(file.live, file.secret))
        && memory
            .directories
            .iter()
            .all(|directory| is_below(directory.live, directory.secret))
}

/// Whether two live files share no byte.
fn are_apart(file: &FileRecord, other: &FileRecord) -> bool
    ensures { result ≡ are_files_apart file.now other.now }
{
    !file.live || file.part().is_clear_of(other)
}

/// Whether live files lie in the area and share no byte.
fn files_sound(memory: &Memory) -> bool
    ensures { result ≡ are_files_sound (content memory.now) }
{
    let area = memory.area.len() as u64;
    memory
        .files
        .iter()
        .all(|file| !file.live || file.part().ends_by(area))
        && holds_of_each_two(memory.files, are_apart)
}

/// Whether row counts are small enough and counted rows are sound.
fn rows_all_sound<F: CommutingFamily>(family: &F, port: Port, memory: &Memory) -> bool
    ensures { result ≡ are_all_rows_sound (F.meaning family.now).modulus port.bytes
        (content memory.now) }
{
    let test = RowTest {
        modulus: family.modulus(),
        port,
    };
    memory
        .directories
        .iter()
        .all(|directory| directory.count <= 16)
        && test.directories(memory.directories, memory.rows)
}

/// Tests the parts of soundness in turn. Both clauses of `is_sound` follow from its value.
fn passes_all<F: CommutingFamily>(family: &F, port: Port, memory: &Memory) -> bool
    ensures { result
        ≡ (are_secrets_below (F.meaning family.now).modulus (content memory.now)
        && (are_files_sound (content memory.now)
        && are_all_rows_sound (F.meaning family.now).modulus port.bytes (content memory.now))) }
{
    secrets_below(family, memory) && files_sound(memory) && rows_all_sound(family, port, memory)
}

/// Whether the memory is sound for a family and a port.
pub fn is_sound<F: CommutingFamily>(family: &F, port: Port, memory: &Memory) -> bool
    ensures value { result ≡ is_sound (F.meaning family.now).modulus port.bytes
        (content memory.now) }
    ensures words { Decides result
        (IsSound (F.meaning family.now).modulus port.bytes (content memory.now)) }
{
    passes_all(family, port, memory)
}
