//! Secrets for one object after the other.
ghost use Rattle.file_lines.specs.Secrets.{can_follow, next_number};
ghost use Rattle.std.specs.Prelude.{◌≡◌};
ghost use Rattle.table.specs.Lowest.{IsLowest};

use family::CommutingFamily;
use secret::{SETS, Secret, is_fit};

/// The least number above the last one that is fit to be a secret, if there is one.
#[tactic(auto, using(crate::proofs::FitFacts::none_follows_below))]
fn next_fit<F: CommutingFamily>(family: &F, last: u64) -> Option<u64>
    ensures { IsLowest (can_follow (F.meaning family.now) last)
        (F.meaning family.now).modulus result }
{
    let mut scratch = [0; SETS];
    for number in last.saturating_add(1)..family.modulus() {
        if is_fit(family, Secret::new(number), &mut scratch) == Some(true) {
            return Some(number);
        }
    }
    None
}

/// The number of the next secret. Where no number is fit, returns one that no store takes.
#[tactic(auto, using(table::proofs::LowestFacts::lowest_unique))]
pub(crate) fn next_number<F: CommutingFamily>(family: &F, last: u64) -> u64
    ensures { result ≡ next_number (F.meaning family.now) last }
{
    next_fit(family, last).unwrap_or(u64::MAX)
}
