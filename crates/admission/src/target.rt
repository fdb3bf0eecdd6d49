//! Objects by their numbers.
ghost use Rattle.admission.specs.Objects.{target_at, secret_of};
ghost use Rattle.memory.specs.Held.{content};
ghost use Rattle.std.specs.Prelude.{◌≡◌};

use holder::Object;
use memory::{DirectoryRecord, FileRecord, Memory};
use secret::Secret;
use table::Table;

/// The object of a capability: the store itself, or a live file or directory at its place.
#[derive(Clone, Copy)]
pub enum Target {
    Itself,
    File(usize, FileRecord),
    Directory(usize, DirectoryRecord),
}

impl Target {
    /// The object's secret, where `own` is the store's.
    pub fn secret(self, own: Secret) -> Secret
        ensures { result ≡ secret_of own self }
    {
        match self {
            Target::Itself => own,
            Target::File(_, record) => record.secret,
            Target::Directory(_, record) => record.secret,
        }
    }
}

/// The live object with a number, if there is one.
pub fn locate(memory: &Memory, object: Object) -> Option<Target>
    ensures { result ≡ target_at (content memory.now) object.value }
{
    let number = object.number();
    if number == 0 {
        return Some(Target::Itself);
    }
    let files = memory.files.len() as u64;
    if number <= files {
        let place = (number - 1) as usize;
        return Table::new(&*memory.files)
            .find(place)
            .map(|record| Target::File(place, record));
    }
    let place = (number - 1 - files) as usize;
    Table::new(&*memory.directories)
        .find(place)
        .map(|record| Target::Directory(place, record))
}
