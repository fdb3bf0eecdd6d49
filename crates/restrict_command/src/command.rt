//! The command: the restriction carried out, and the four words taken through to the report.
ghost use Rattle.holder.specs.Dropping.{thin_to};
ghost use Rattle.holder.specs.Refusals.{holder_refusal};
ghost use Rattle.refusal.specs.Chains.{refused_as};
ghost use Rattle.restrict_command.specs.Restriction.{report_on, rest_of};
ghost use Rattle.std.specs.Prelude.{◌≡◌};

use crate::error::Failure;
use crate::report::Report;
use crate::restriction::Restriction;
use crate::words::Words;
use family::{CommutingFamily, Dickson, FamilyKind, Powers};
use holder::Capability;
use refusal::Refusal;

/// The capability, thinned in this family.
fn thin_in<F: CommutingFamily>(family: &F, restriction: Restriction) -> Result<Capability, Refusal>
    ensures { result
        ≡ refused_as holder_refusal
        (thin_to (F.meaning family.now) restriction.capability restriction.mask.bits) }
{
    Ok(restriction.capability.thin_to(family, restriction.mask)?)
}

/// The capability that is left, or the refusal.
pub fn carry_out(restriction: Restriction) -> Result<Capability, Refusal>
    ensures { result ≡ rest_of restriction }
{
    match restriction.family {
        FamilyKind::Powers => thin_in(&Powers::new(restriction.modulus)?, restriction),
        FamilyKind::Dickson => thin_in(&Dickson::new(restriction.modulus)?, restriction),
    }
}

/// Reads the four words, and carries out their restriction.
pub fn restrict_words(words: Words) -> Result<Report, Failure>
    ensures { result
        ≡ report_on words.entry.letter.now words.entry.modulus.now
        words.entry.capability.now words.entry.mask.now }
{
    let restriction = words.read()?;
    let rest = carry_out(restriction)?;
    Ok(Report {
        whole: restriction.capability,
        rest,
    })
}
