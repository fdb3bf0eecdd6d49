//! The need of a request: kinds of objects, and rights.
ghost use Rattle.std.specs.Prelude.{◌≡◌};
ghost use Rattle.admission.specs.Needs.{have_common_right, fits_kinds};

use crate::target::Target;
use family::has_right;

/// The kinds of objects that a request may be made of.
#[derive(Clone, Copy, PartialEq, Eq, Hash, Debug)]
pub struct Kinds {
    pub store: bool,
    pub files: bool,
    pub directories: bool,
}

impl Kinds {
    /// Whether the object is of one of these kinds.
    pub(crate) fn fit(self, target: Target) -> bool
        ensures { result ≡ fits_kinds self target }
    {
        match target {
            Target::Itself => self.store,
            Target::File(..) => self.files,
            Target::Directory(..) => self.directories,
        }
    }
}

/// The kinds of objects that a request may be made of, and the rights of which it wants one.
///
/// Right k is bit k.
#[derive(Clone, Copy, PartialEq, Eq, Hash, Debug)]
pub struct Need {
    pub kinds: Kinds,
    pub rights: u8,
}

/// Whether two sets of rights have one in common.
#[tactic(auto, unfolding(crate::specs::Needs::have_common_right))]
pub(crate) fn has_one(held: u8, asked: u8) -> bool
    ensures { result ≡ have_common_right held asked }
{
    [0, 1, 2, 3, 4, 5, 6, 7]
        .iter()
        .any(|k| has_right(held, *k) && has_right(asked, *k))
}
