//! The texts of refusals, as an application that passes them on shows them.
use crate::parts::capability;
use admission::Denial;
use family::Powers;
use holder::{Capability, HolderRefusal};
use std::alloc::{AllocError, Global};
use std::fmt::Display;
use std::test::Fail;

/// Whether a value is shown as this text.
fn shows<D: Display>(heap: Global, value: &D, text: &str) -> Result<bool, AllocError> {
    Ok(value.to_string(heap)?.as_str() == text)
}

/// Drops a right over a modulus, and passes on whatever refuses.
fn drop_over(modulus: u64, right: u64) -> anyhow::Result<Capability> {
    let powers = Powers::new(modulus)?;
    Ok(capability(65, 255, 16_807).drop_right(&powers, right)?)
}

#[test]
fn refusals_passed_on(rt: HostRuntime) -> Result<(), Fail> {
    for (modulus, right, text) in [
        (2, 0, "the modulus is not from 3 to 2,147,483,647"),
        (2_147_483_647, 8, "the right is not from 0 to 7"),
        (101, 0, "the check is not below the modulus of the family"),
    ] {
        let error = drop_over(modulus, right).err().ok_or("not refused")?;
        assert!(rt; shows(rt.alloc(), &error, text)?, "{text}");
    }
    Ok(())
}

#[test]
fn texts_of_denials(rt: HostRuntime) -> Result<(), Fail> {
    for (denial, text) in [
        (Denial::WrongPort, "the capability is for another port"),
        (
            Denial::NoSuchObject,
            "no live object has the number in the capability",
        ),
        (
            Denial::WrongCheck,
            "the check is not the genuine one for the rights",
        ),
        (
            Denial::RightMissing,
            "the capability lacks the right that the request needs",
        ),
        (
            Denial::WrongKind,
            "the object is not of the kind that the request needs",
        ),
    ] {
        assert!(rt; shows(rt.alloc(), &denial, text)?, "{denial:?}");
    }
    let length = HolderRefusal::WrongLength;
    assert!(rt; shows(rt.alloc(), &length, "a capability has sixteen bytes")?);
    Ok(())
}
