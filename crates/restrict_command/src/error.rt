//! The reasons for which there is nothing to report.
ghost use Rattle.restrict_command.specs.Report.{failure_text, misuse_text};
ghost use Rattle.restrict_command.specs.declared.error.Failure.TheVariants.{Misused, Refused};
ghost use Rattle.std.specs.Prelude.{◌≡◌, Some};

use refusal::Refusal;
use std::error::Error;
use std::fmt;
use text::RefusalLine;

/// The word that cannot be read.
#[derive(Clone, Copy, PartialEq, Eq, Debug)]
pub enum Misuse {
    /// No family has this letter.
    BadLetter,
    /// No decimal.
    BadModulus,
    /// Not 32 hexadecimal digits.
    BadCapability,
    /// Not 2 hexadecimal digits.
    BadMask,
}

impl Misuse {
    /// The form that the word should have.
    fn advice(self) -> &'static str
        ensures { result.now ≡ misuse_text self }
    {
        match self {
            Misuse::BadLetter => "LETTER is P or D",
            Misuse::BadModulus => "MODULUS is a decimal of 1 to 15 digits, with no zero in front",
            Misuse::BadCapability => "CAPABILITY is 32 hexadecimal digits, in small letters",
            Misuse::BadMask => "MASK is 2 hexadecimal digits, in small letters",
        }
    }
}

impl fmt::Display for Misuse {
    ghost output = { λ x. Some (misuse_text x) };

    fn fmt<W: fmt::Write>(&self, f: &mut fmt::Formatter<W>) -> fmt::Result {
        f.write_str(self.advice())
    }
}

impl Error for Misuse {}

/// The reason for which there is nothing to report.
#[derive(Clone, Copy, PartialEq, Eq, Debug)]
pub enum Failure {
    /// A word cannot be read.
    Misused(Misuse),
    /// The family or the holders' part refused.
    Refused(Refusal),
}

impl fmt::Display for Failure {
    ghost output = { λ x. Some (failure_text x) };

    fn fmt<W: fmt::Write>(&self, f: &mut fmt::Formatter<W>) -> fmt::Result {
        match self {
            Failure::Misused(misuse) => write!(f, "{misuse}"),
            Failure::Refused(refusal) => write!(f, "{}", RefusalLine { refusal: *refusal }),
        }
    }
}

impl Error for Failure {}

impl From<Misuse> for Failure {
    ghost from_gives = { λ e r. r ≡ Misused e };

    fn from(e: Misuse) -> Failure {
        Failure::Misused(e)
    }
}

impl From<Refusal> for Failure {
    ghost from_gives = { λ e r. r ≡ Refused e };

    fn from(e: Refusal) -> Failure {
        Failure::Refused(e)
    }
}
