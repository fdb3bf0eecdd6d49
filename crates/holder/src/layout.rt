//! A capability as sixteen bytes.
ghost use Rattle.holder.specs.Layout.{capability_bytes, read_capability, capability_of};
ghost use Rattle.std.specs.Prelude.{◌≡◌, IfOk, Ok};

use crate::capability::{Capability, Port, Rights};
use crate::check::Check;
use crate::error::HolderRefusal;
use crate::object::Object;

/// The parts, each from its place.
impl From<[u8; 16]> for Capability {
    ghost from_gives = { λ bytes c. (c ≡ capability_of bytes) × (capability_bytes c ≡ bytes) };

    fn from(bytes: [u8; 16]) -> Capability {
        Capability {
            port: Port {
                bytes: [bytes[0], bytes[1], bytes[2], bytes[3], bytes[4], bytes[5]],
            },
            object: Object::from_bytes([bytes[6], bytes[7], bytes[8]]),
            rights: Rights { bits: bytes[9] },
            check: Check::from_bytes([
                bytes[10], bytes[11], bytes[12], bytes[13], bytes[14], bytes[15],
            ]),
        }
    }
}

/// Any sixteen bytes as a capability; another count is refused.
impl TryFrom<&[u8]> for Capability {
    type Error = HolderRefusal;

    ghost try_from_gives = { λ bs r. (r ≡ read_capability bs.now)
        × IfOk r (λ c. capability_bytes c ≡ bs.now) };

    fn try_from(bytes: &[u8]) -> Result<Capability, HolderRefusal> {
        let bytes = <[u8; 16]>::try_from(bytes).map_err(|_| HolderRefusal::WrongLength)?;
        Ok(Capability::from(bytes))
    }
}

/// The sixteen bytes.
impl From<Capability> for [u8; 16] {
    ghost from_gives = { λ c bytes. (bytes ≡ capability_bytes c) × (read_capability bytes ≡ Ok c) };

    fn from(c: Capability) -> [u8; 16] {
        let [p0, p1, p2, p3, p4, p5] = c.port.bytes;
        let [o0, o1, o2] = c.object.bytes();
        let [c0, c1, c2, c3, c4, c5] = c.check.bytes();
        let bits = c.rights.bits;
        [
            p0, p1, p2, p3, p4, p5, o0, o1, o2, bits, c0, c1, c2, c3, c4, c5,
        ]
    }
}
