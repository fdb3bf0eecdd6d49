//! The built-in families by their letters.
ghost use Rattle.family.specs.Kinds.{kind_of, letter_of};
ghost use Rattle.family.specs.declared.family_kind.FamilyKind.{FamilyKind};
ghost use Rattle.std.specs.Prelude.{◌≡◌, Some};

use crate::commuting_family::CommutingFamily;
use crate::dickson::Dickson;
use crate::powers::Powers;

/// A built-in family.
#[derive(Clone, Copy, PartialEq, Eq, Hash, Debug)]
pub enum FamilyKind {
    /// Modular powers.
    Powers,
    /// Dickson polynomials.
    Dickson,
}

impl FamilyKind {
    /// The letter of the family.
    pub fn letter(self) -> char
        ensures { result ≡ letter_of self }
    {
        match self {
            FamilyKind::Powers => Powers::LETTER,
            FamilyKind::Dickson => Dickson::LETTER,
        }
    }

    /// The family of a letter, if one has it.
    pub fn with_letter(letter: char) -> Option<FamilyKind>
        ensures kind { result ≡ kind_of letter }
        ensures only { (kind : FamilyKind) → result ≡ Some kind → letter ≡ letter_of kind }
        ensures each { (kind : FamilyKind) → letter ≡ letter_of kind → result ≡ Some kind }
    {
        match letter {
            'P' => Some(FamilyKind::Powers),
            'D' => Some(FamilyKind::Dickson),
            _ => None,
        }
    }
}
