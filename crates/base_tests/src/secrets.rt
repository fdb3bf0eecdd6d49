//! Examples of secrets, their checks and their fitness.
use crate::parts::{PORT, object};
use family::{CommutingFamily, Dickson, Powers};
use holder::{Capability, Check, Rights};
use secret::{Secret, is_fit};
use std::test::Fail;

/// Whether the secret of s is fit, decided in a scratch that held something else.
fn fitness<F: CommutingFamily>(family: &F, s: u64) -> Option<bool> {
    let mut scratch = [7; 256];
    is_fit(family, Secret::new(s), &mut scratch)
}

/// The owner capability of one object, from the secret of s.
fn owner(s: u64) -> Option<Capability> {
    Secret::new(s).owner(PORT, object(65))
}

/// Whether the secret of s accepts the number v as the check for these rights.
fn accepts<F: CommutingFamily>(family: &F, s: u64, bits: u8, v: u64) -> bool {
    Check::new(v).is_some_and(|check| Secret::new(s).accepts(family, Rights { bits }, check))
}

#[test]
fn fit_in_powers(rt: HostRuntime) -> Result<(), Fail> {
    let powers = Powers::new(3413)?;
    for (s, expected) in [
        (2, true),
        (0, false), // zero stays zero
        (1, false), // one stays one
        (3413, false), // not below the modulus
    ] {
        assert!(rt; fitness(&powers, s) == Some(expected), "{s}");
    }
    Ok(())
}

#[test]
fn fit_in_dickson(rt: HostRuntime) -> Result<(), Fail> {
    let dickson = Dickson::new(3631)?;
    assert!(rt; fitness(&dickson, 4) == Some(true));
    assert!(rt; fitness(&dickson, 2) == Some(false), "two stays two");
    Ok(())
}

/// The numbers left of a scratch in which the fitness of the secret s was decided.
fn left(s: u64, mut scratch: [u64; 256]) -> Option<[u64; 256]> {
    let powers = Powers::new(3413).ok()?;
    is_fit(&powers, Secret::new(s), &mut scratch)?;
    Some(scratch)
}

#[test]
fn scratch_is_wiped(rt: HostRuntime) {
    for s in [2, 1, 3413] {
        assert!(rt; left(s, [7; 256]) == Some([0; 256]), "{s}");
    }
}

#[test]
fn a_short_scratch_is_untouched(rt: HostRuntime) -> Result<(), Fail> {
    let powers = Powers::new(3413)?;
    let mut short = [7; 255];
    assert!(rt; is_fit(&powers, Secret::new(2), &mut short).is_none());
    assert!(rt; short == [7; 255]);
    Ok(())
}

#[test]
fn owners(rt: HostRuntime) -> Result<(), Fail> {
    let most = owner(281_474_976_710_655).ok_or("48 bits fit")?;
    assert!(rt; most.rights.bits == 255);
    assert!(rt; most.check.number() == 281_474_976_710_655);
    assert!(rt; owner(281_474_976_710_656).is_none());
    Ok(())
}

#[test]
fn secrets_compare_by_their_numbers(rt: HostRuntime) {
    assert!(rt; Secret::new(5) == Secret::new(5));
    assert!(rt; Secret::new(5) != Secret::new(6));
}

#[test]
fn acceptance(rt: HostRuntime) -> Result<(), Fail> {
    let powers = Powers::new(3413)?;
    let whole = owner(2).ok_or("no owner")?;
    let less = whole.drop_right(&powers, 0)?;
    for (rights, check, expected) in [
        (whole.rights, whole.check, true),
        (less.rights, less.check, true),
        (whole.rights, less.check, false), // more than was left
        (less.rights, whole.check, false), // not its own check
    ] {
        let accepted = Secret::new(2).accepts(&powers, rights, check);
        assert!(rt; accepted == expected, "{rights:?}, {check:?}");
    }
    Ok(())
}

#[test]
fn checks_at_the_modulus(rt: HostRuntime) -> Result<(), Fail> {
    let powers = Powers::new(3413)?;
    assert!(rt; accepts(&powers, 2, 255, 2));
    assert!(rt; !accepts(&powers, 2, 255, 3415), "the same number modulo n");
    assert!(rt;
        !accepts(&powers, 3413, 255, 3413),
        "though it is the secret"
    );
    assert!(rt; Secret::new(3412).below(&powers));
    assert!(rt; !Secret::new(3413).below(&powers));
    Ok(())
}
