//! Fitness of secrets: the 256 thinned numbers, one for each set of rights, all differ.
ghost use Rattle.std.specs.Prelude.{◌≡◌, ◌≢◌, ℕ, ◌<◌, length, slice_index, Decides, MatchBool};
ghost use Rattle.family.specs.Fit.{IsFit};
ghost use Rattle.secret.specs.Fitness.{AreAllNew, IsNewAt, are_all_apart, is_fit, scratch_left, thinned_number, fitness_of};

use crate::scratch::Scratch;
use crate::secret::Secret;
use crate::thinned_numbers::fill;
use family::CommutingFamily;

/// The number of sets of rights, and so of numbers in the scratch.
pub const SETS: usize = 256;

/// Whether a number is among others. It compares all: that is faster than a branch at each.
fn is_among(number: u64, others: &[u64]) -> bool
    ensures { MatchBool result
        ((i : ℕ) × ((i < length others.now) × (slice_index others.now i ≡ number)))
        ((i : ℕ) → i < length others.now → slice_index others.now i ≢ number) }
{
    let mut among = false;
    for other in others {
        among |= *other == number;
    }
    among
}

/// Whether each number differs from all before it.
fn all_differ(numbers: &[u64; SETS]) -> bool
    ensures { MatchBool result (AreAllNew numbers.now 256) (AreAllNew numbers.now 256 → ⊥) }
{
    // A loop and not `all`: the checker proves only the loop without help.
    for (j, number) in numbers.iter().enumerate() {
        if is_among(*number, &numbers[..j]) {
            return false;
        }
    }
    true
}

/// Whether the thinned numbers of s, a number below the modulus, are pairwise different.
fn thinned_differ<F: CommutingFamily>(family: &F, s: u64, numbers: &mut [u64; SETS]) -> bool
    requires { s < (F.meaning family.now).modulus }
    ensures { result ≡ are_all_apart (thinned_number (F.meaning family.now).function s) 256 }
{
    fill(family, s, numbers);
    all_differ(numbers)
}

/// Whether s is fit, with 256 numbers to work in.
fn verdict<F: CommutingFamily>(family: &F, s: u64, numbers: &mut [u64; SETS]) -> bool
    ensures { result ≡ is_fit (F.meaning family.now) s }
{
    s < family.modulus() && thinned_differ(family, s, numbers)
}

/// Whether s is fit, worked out in a scratch of the right size and wiped from it.
fn decide<F: CommutingFamily>(family: &F, s: u64, scratch: &mut [u64]) -> Option<bool>
    ensures value { result ≡ fitness_of (F.meaning family.now) s scratch.old }
    ensures zeroed { scratch.new ≡ scratch_left scratch.old }
{
    if scratch.len() != SETS {
        return None;
    }
    // A function that returns the guard in an `Option` cannot say what `None` leaves.
    let guard = Scratch { numbers: scratch };
    Some(verdict(family, s, guard.numbers.as_mut_array()?))
}

/// Whether the secret is fit, worked out in a scratch of 256 numbers, which are zero afterwards.
///
/// None for any other scratch, which stays as it is.
pub fn is_fit<F: CommutingFamily>(family: &F, secret: Secret, scratch: &mut [u64]) -> Option<bool>
    ensures value { result ≡ fitness_of (F.meaning family.now) secret.value scratch.old }
    ensures zeroed { scratch.new ≡ scratch_left scratch.old }
    ensures decides { Decides (is_fit (F.meaning family.now) secret.value)
        (IsFit (F.meaning family.now) secret.value) }
{
    decide(family, secret.value, scratch)
}
