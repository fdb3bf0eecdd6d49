//! Examples of capabilities, dropped and thinned.
use crate::parts::capability;
use family::Powers;
use holder::{Capability, Check, HolderRefusal, Mask, Object};
use refusal::{Layer, Refusal};
use std::test::Fail;

/// The capability of object 65 with all rights, as its bytes.
const OWNER: [u8; 16] = [
    0x50, 0x55, 0x4d, 0x50, 0x30, 0x31, 0, 0, 0x41, 0xff, 0, 0, 0, 0, 0x41, 0xa7,
];

#[test]
fn sixteen_bytes(rt: HostRuntime) {
    let owner = capability(65, 255, 16_807);
    assert!(rt; <[u8; 16]>::from(owner) == OWNER);
    assert!(rt; (owner.object.number(), owner.check.number()) == (65, 16_807));
    for (bytes, expected) in [
        (&OWNER[..], Ok(owner)),
        (&OWNER[0..15], Err(HolderRefusal::WrongLength)),
        (&[7u8; 17][..], Err(HolderRefusal::WrongLength)),
    ] {
        assert!(rt; Capability::try_from(bytes) == expected, "{bytes:?}");
    }
}

#[test]
fn numbers_that_fit(rt: HostRuntime) {
    assert!(rt; Check::new(281_474_976_710_655).is_some());
    assert!(rt; Check::new(281_474_976_710_656).is_none());
    assert!(rt; Object::new(16_777_215).is_some());
    assert!(rt; Object::new(16_777_216).is_none());
}

#[test]
fn drops(rt: HostRuntime) -> Result<(), Fail> {
    let powers = Powers::new(2_147_483_647)?;
    let owner = capability(65, 255, 16_807);
    let less = capability(65, 254, 1_144_108_930);
    let wide = capability(65, 0, 2_147_483_647);
    for (presented, right, expected) in [
        (owner, 0, Ok(less)),
        (less, 0, Ok(less)), // dropped before
        (owner, 8, Err(HolderRefusal::NoSuchRight)),
        (owner, 256, Err(HolderRefusal::NoSuchRight)), // not its low byte
        (wide, 3, Err(HolderRefusal::CheckTooLarge)), // though the right is missing
        (wide, 8, Err(HolderRefusal::NoSuchRight)), // the right is tested first
    ] {
        assert!(rt;
            presented.drop_right(&powers, right) == expected,
            "{right} of {presented:?}"
        );
    }
    Ok(())
}

#[test]
fn thinning(rt: HostRuntime) -> Result<(), Fail> {
    let powers = Powers::new(2_147_483_647)?;
    let owner = capability(65, 255, 16_807);
    let wide = capability(65, 0, 2_147_483_647);
    for (presented, bits, expected) in [
        (owner, 0xfe, Ok(capability(65, 254, 1_144_108_930))),
        (owner, 0xff, Ok(owner)),
        (wide, 0xff, Err(HolderRefusal::CheckTooLarge)), // though nothing is dropped
    ] {
        assert!(rt;
            presented.thin_to(&powers, Mask { bits }) == expected,
            "{presented:?} to {bits}"
        );
    }
    Ok(())
}

#[test]
fn thinning_twice(rt: HostRuntime) -> Result<(), Fail> {
    let powers = Powers::new(2_147_483_647)?;
    let owner = capability(65, 255, 16_807);
    let some = owner.thin_to(&powers, Mask { bits: 0x3c })?;
    let less = some.thin_to(&powers, Mask { bits: 0x0f })?;
    assert!(rt; less == owner.thin_to(&powers, Mask { bits: 0x0c })?);
    Ok(())
}

#[test]
fn refusals_as_plain_values(rt: HostRuntime) {
    for (e, number) in [
        (HolderRefusal::WrongLength, 5),
        (HolderRefusal::NoSuchRight, 8),
        (HolderRefusal::CheckTooLarge, 9),
    ] {
        let r = Refusal::from(e);
        assert!(rt;
            (r.number, r.layer, r.place) == (number, Layer::Holder, 0),
            "{number}"
        );
    }
}
