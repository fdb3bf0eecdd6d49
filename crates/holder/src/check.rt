//! Checks.
ghost use Rattle.std.specs.Prelude.{◌^◌, ◌<◌};

use crate::bytes::{bytes_of, number_of};

/// The number that shows the rights to be genuine: 48 bits.
#[derive(Clone, Copy, PartialEq, Eq, Hash, Debug)]
pub struct Check {
    pub(crate) value: u64,
    ghost narrow: { value < 2 ^ 48 },
}

/// Methods and not `TryFrom`, as `new` and `get` of `NonZeroU64`: the one failure needs no name.
impl Check {
    ghost use Rattle.holder.specs.Bytes.{bytes_of, number};
    ghost use Rattle.holder.specs.Checks.{check_of};
    ghost use Rattle.std.specs.Prelude.{◌≡◌, ◌≤◌, MatchOption};

    /// The check of a number, if it fits 48 bits.
    pub fn new(n: u64) -> Option<Check>
        ensures { MatchOption result (2 ^ 48 ≤ n) (λ x. (n < 2 ^ 48) × (x ≡ check_of n)) }
    {
        if n >> 48 != 0 {
            return None;
        }
        Some(Check { value: n })
    }

    /// The number of the check.
    pub fn number(self) -> u64
        ensures { result ≡ self.value }
    {
        self.value
    }

    /// The check that six bytes spell.
    pub(crate) fn from_bytes(bytes: [u8; 6]) -> Check
        ensures { result ≡ check_of (number bytes) }
    {
        let value = number_of::<6>(&bytes);
        Check { value }
    }

    /// The six bytes of the check.
    pub(crate) fn bytes(self) -> [u8; 6]
        ensures { result ≡ bytes_of 6 self.value }
    {
        bytes_of::<6>(self.value).unwrap()
    }
}
