//! The runs that are filed.
use holder::Capability;

/// A run: the number of its line, its owner capability, and the capability that is handed out.
#[derive(Clone, Copy, PartialEq, Eq, Debug)]
pub(crate) struct Run {
    pub(crate) line: u64,
    pub(crate) owner: Capability,
    pub(crate) reader: Capability,
}
