//! Capabilities and their parts, made from numbers.
use holder::{Capability, Check, Object, Port, Rights};

/// The port of all examples.
pub const PORT: Port = Port { bytes: *b"PUMP01" };

/// The object of a number below 256.
pub fn object(number: u8) -> Object {
    Object::new(u64::from(number)).unwrap()
}

/// The check of a number.
pub fn check(number: u32) -> Check {
    Check::new(u64::from(number)).unwrap()
}

/// A capability for an object with these rights and this check.
pub fn capability(number: u8, bits: u8, of: u32) -> Capability {
    Capability {
        port: PORT,
        object: object(number),
        rights: Rights { bits },
        check: check(of),
    }
}
