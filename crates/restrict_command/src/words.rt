//! The words of the command line, read.
ghost use Rattle.restrict_command.specs.Words.{family_in, restriction_in};
ghost use Rattle.std.specs.Prelude.{◌≡◌};

use crate::error::Misuse;
use crate::restriction::Restriction;
use family::FamilyKind;
use holder::{Capability, Mask};
use text::{read_decimal, read_hex};

/// The family whose letter stands alone in the word.
fn read_family(word: &[u8]) -> Option<FamilyKind>
    ensures { result ≡ family_in word.now }
{
    let [letter] = word else {
        return None;
    };
    FamilyKind::with_letter(*letter as char)
}

/// The four words of a command.
#[derive(Clone, Copy)]
pub struct Words<'a> {
    pub letter: &'a [u8],
    pub modulus: &'a [u8],
    pub capability: &'a [u8],
    pub mask: &'a [u8],
}

impl Words<'_> {
    /// The restriction that the words name, or the first word that cannot be read.
    pub fn read(self) -> Result<Restriction, Misuse>
        ensures { result
            ≡ restriction_in self.entry.letter.now self.entry.modulus.now
            self.entry.capability.now self.entry.mask.now }
    {
        let family = read_family(self.letter).ok_or(Misuse::BadLetter)?;
        let modulus = read_decimal(self.modulus).ok_or(Misuse::BadModulus)?;
        let bytes = read_hex::<16>(self.capability).ok_or(Misuse::BadCapability)?;
        let [bits] = read_hex::<1>(self.mask).ok_or(Misuse::BadMask)?;
        Ok(Restriction {
            family,
            modulus,
            capability: Capability::from(bytes),
            mask: Mask { bits },
        })
    }
}
