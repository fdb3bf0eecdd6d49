//! The 256 thinned numbers of a secret, one for each set of rights.
ghost use Rattle.std.specs.Prelude.{◌≡◌, ℕ, ◌+◌, ◌*◌, ◌/◌, ◌^◌, ◌<◌, slice_index};
ghost use Rattle.secret.specs.Fitness.{thinned_number};

use crate::fitness::SETS;
use family::CommutingFamily;

/// Fills the sets whose least right is k, each from the set without k.
///
/// They stand at the odd multiples of 2^k.
fn add_right<F: CommutingFamily>(family: &F, k: u64, numbers: &mut [u64; SETS])
    requires right { k < 8 }
    requires below { (i : ℕ) → i < 128 / 2 ^ k
        → slice_index numbers.old (2 * i * 2 ^ k) < (F.meaning family.now).modulus }
    ensures kept { (i : ℕ) → i < 128 / 2 ^ k
        → slice_index numbers.new (2 * i * 2 ^ k) ≡ slice_index numbers.old (2 * i * 2 ^ k) }
    ensures added { (i : ℕ) → i < 128 / 2 ^ k
        → slice_index numbers.new ((2 * i + 1) * 2 ^ k)
        ≡ (F.meaning family.now).function k (slice_index numbers.old (2 * i * 2 ^ k)) }
{
    let step = 1 << k;
    for i in 0..128 >> k {
        numbers[(2 * i + 1) * step] = family.value(k, numbers[2 * i * step]);
    }
}

/// Makes number M the secret s thinned by the set M, with one application a set.
///
/// The greatest right comes first: so the dearest function is applied once, the cheapest 128 times.
pub(crate) fn fill<F: CommutingFamily>(family: &F, s: u64, numbers: &mut [u64; SETS])
    requires { s < (F.meaning family.now).modulus }
    ensures { (m : ℕ) → m < 256
        → slice_index numbers.new m ≡ thinned_number (F.meaning family.now).function s m }
{
    numbers[0] = s;
    for k in (0..8u64).rev() {
        add_right(family, k, numbers);
    }
}
