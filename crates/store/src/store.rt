//! The store: it lasts from one request to the next.
ghost use Rattle.std.specs.Prelude.{◌≡◌, ◌≤◌};

use crate::places::Places;
use admission::Gate;

/// A store: family, port, secret, the places of its two tables, and the size of its area.
///
/// Clauses see a store as `kept_of F.meaning self`, and not by a model: a model's value wants a
/// code, and functions have none.
#[derive(Drop)]
pub struct Store<F> {
    pub(crate) gate: Gate<F>,
    pub(crate) files: Places,
    pub(crate) directories: Places,
    pub(crate) area: usize,
    ghost few: { (files.size ≤ 256) × (directories.size ≤ 64) },
}

impl<F> Store<F> {
    /// The family of the store, with which its holders drop rights.
    pub fn family(&self) -> &F
        ensures { result.now ≡ self.now.gate.family }
    {
        &self.gate.family
    }
}
