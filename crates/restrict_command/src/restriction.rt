//! A restriction: which capability to thin, to which mask, and in which family.
use family::FamilyKind;
use holder::{Capability, Mask};

/// The four words, read.
#[derive(Clone, Copy, PartialEq, Eq, Debug)]
pub struct Restriction {
    pub family: FamilyKind,
    pub modulus: u64,
    pub capability: Capability,
    pub mask: Mask,
}
