//! Families of commuting functions.
ghost use Rattle.std.specs.Prelude.{◌≡◌, ℕ, ◌<◌};
ghost use Rattle.family.specs.Commuting.{IsCommuting, Family, apply};

/// A modulus n, and for each right a function on the numbers below n. The functions commute.
///
/// A right is a number k, as in f_k and bit k. It is no enum, since `apply` answers for any k.
pub trait CommutingFamily {
    /// The letter of the family, the same for all its values.
    const LETTER: char;

    ghost LETTER: { ℕ };

    /// The modulus n, and the function f_k at v.
    ghost meaning: { Self → Family };

    /// The letter, for code that knows of the family only this trait.
    fn its_letter() -> char
        ensures { result ≡ LETTER }
    {
        Self::LETTER
    }

    /// The modulus n.
    fn modulus(&self) -> u64
        ensures { result ≡ (meaning self.now).modulus };

    /// f_k(v), for a right k and a number v below n.
    fn value(&self, k: u64, v: u64) -> u64
        requires right { k < 8 }
        requires below { v < (meaning self.now).modulus }
        ensures { result ≡ (meaning self.now).function k v };

    /// f_k(v), or v itself where k is above 7 or v is not below n.
    fn apply(&self, k: u64, v: u64) -> u64
        ensures { result ≡ apply (meaning self.now) k v }
    {
        if k > 7 || v >= self.modulus() {
            return v;
        }
        self.value(k, v)
    }

    /// n is from 1 to 2^48, and the functions stay below it and commute.
    ghost laws: { (s : Self) → IsCommuting (meaning s) };
}
