//! Sets of rights, and thinning a number by one, in any family.
ghost use Rattle.std.specs.Prelude.{◌≡◌, ◌<◌, ◌≤◌};
ghost use Rattle.family.specs.Commuting.{apply};
ghost use Rattle.family.specs.Fit.{FitLaws};
ghost use Rattle.family.specs.Rights.{has_right};
ghost use Rattle.family.specs.Thin.{ThinLaws, thin};

use crate::commuting_family::CommutingFamily;

/// Whether right k is in the set. No set has a right above 7.
pub fn has_right(set: u8, k: u64) -> bool
    ensures { result ≡ has_right set k }
{
    k < 8 && (set >> k) % 2 == 1
}

/// v after f_k for each right k of the set, the smallest first. A v not below n stays as it is.
pub fn thin_number<F: CommutingFamily>(family: &F, v: u64, set: u8) -> u64
    ensures value { result ≡ thin (apply (F.meaning family.now)) v (has_right set) }
    ensures plain { v < (F.meaning family.now).modulus
        → result ≡ thin (F.meaning family.now).function v (has_right set) }
    ensures unasked { (F.meaning family.now).modulus ≤ v → result ≡ v }
    ensures thinning { ThinLaws (F.meaning family.now) }
    ensures fitness { FitLaws (F.meaning family.now) }
{
    let mut result = v;
    for k in 0..8u64 {
        if has_right(set, k) {
            result = family.apply(k, result);
        }
    }
    result
}
