//! Objects by their numbers.
ghost use Rattle.std.specs.Prelude.{◌^◌, ◌<◌};

use crate::bytes::{bytes_of, number_of};

/// The number of an object: 24 bits.
#[derive(Clone, Copy, PartialEq, Eq, Hash, Debug)]
pub struct Object {
    pub(crate) value: u64,
    ghost narrow: { value < 2 ^ 24 },
}

/// Methods and not `TryFrom`, as `new` and `get` of `NonZeroU64`: the one failure needs no name.
impl Object {
    ghost use Rattle.holder.specs.Bytes.{bytes_of, number};
    ghost use Rattle.holder.specs.Checks.{object_of};
    ghost use Rattle.std.specs.Prelude.{◌≡◌, ◌≤◌, MatchOption};

    /// The object of a number, if it fits 24 bits.
    pub fn new(n: u64) -> Option<Object>
        ensures { MatchOption result (2 ^ 24 ≤ n) (λ x. (n < 2 ^ 24) × (x ≡ object_of n)) }
    {
        if n >> 24 != 0 {
            return None;
        }
        Some(Object { value: n })
    }

    /// The number of the object.
    pub fn number(self) -> u64
        ensures { result ≡ self.value }
    {
        self.value
    }

    /// The object that three bytes spell.
    pub(crate) fn from_bytes(bytes: [u8; 3]) -> Object
        ensures { result ≡ object_of (number bytes) }
    {
        let value = number_of::<3>(&bytes);
        Object { value }
    }

    /// The three bytes of the object.
    pub(crate) fn bytes(self) -> [u8; 3]
        ensures { result ≡ bytes_of 3 self.value }
    {
        bytes_of::<3>(self.value).unwrap()
    }
}
