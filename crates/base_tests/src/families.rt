//! Examples of both families, and a family of the test's own.
ghost use Rattle.std.specs.Prelude.{◌≤◌, refl};
ghost use Rattle.std.proofs.Common.{arith};

use family::{CommutingFamily, Dickson, Powers, has_right, thin_number};
use refusal::{Layer, Refusal};
use std::test::Fail;

/// The identity: lawful, though no secret is fit in it.
#[derive(Clone, Copy)]
struct Unmoving {
    modulus: u64,
    ghost some: { 1 ≤ modulus },
    ghost few: { modulus ≤ 1000 },
}

impl CommutingFamily for Unmoving {
    const LETTER: char = 'I';

    ghost LETTER = { 73 };

    ghost meaning = { λ s. record { modulus = s.modulus; function = λ k v. v } };

    ghost laws = { λ s. record {
      least = s.some;
      most = omega (arith, s.few);
      within = λ k v p h. h;
      commutes = λ j k v p q h. refl;
    } };

    fn modulus(&self) -> u64 {
        self.modulus
    }

    fn value(&self, _k: u64, v: u64) -> u64 {
        v
    }
}

/// The number, layer and place that a modulus is refused with, if it is.
fn refused(n: u64) -> Option<(u8, Layer, u8)> {
    let r = Refusal::from(Powers::new(n).err()?);
    Some((r.number, r.layer, r.place))
}

#[test]
fn lawful_moduli(rt: HostRuntime) {
    let unlawful = Some((4, Layer::Family, 0));
    for (modulus, expected) in [
        (2, unlawful), // one below the least
        (3, None), // the least
        (2_147_483_647, None), // the greatest
        (2_147_483_648, unlawful), // one above the greatest
    ] {
        assert!(rt; refused(modulus) == expected, "powers, {modulus}");
        assert!(rt;
            Dickson::new(modulus).is_err() == expected.is_some(),
            "Dickson polynomials, {modulus}"
        );
    }
}

#[test]
fn powers_of_seven(rt: HostRuntime) -> Result<(), Fail> {
    let p = Powers::new(2_147_483_647)?;
    assert!(rt; p.modulus() == 2_147_483_647);
    assert!(rt; <Powers as CommutingFamily>::its_letter() == 'P');
    for (right, number, expected) in [
        (0, 7, 16_807),
        (1, 7, 252_246_292),
        (1, 16_807, 1_784_484_492), // right 0 dropped before
        (8, 7, 7), // no such right
        (0, 2_147_483_647, 2_147_483_647), // not below the modulus
    ] {
        assert!(rt; p.apply(right, number) == expected, "{right} at {number}");
    }
    assert!(rt; thin_number(&p, 7, 3) == 1_784_484_492);
    Ok(())
}

#[test]
fn dickson_at_three(rt: HostRuntime) -> Result<(), Fail> {
    let d = Dickson::new(101)?;
    assert!(rt; d.modulus() == 101);
    assert!(rt; <Dickson as CommutingFamily>::its_letter() == 'D');
    for (right, number, expected) in [
        (0, 3, 22),
        (1, 3, 56),
        (0, 56, 78), // right 1 dropped before
        (8, 3, 3), // no such right
        (7, 101, 101), // not below the modulus
    ] {
        assert!(rt; d.apply(right, number) == expected, "{right} at {number}");
    }
    assert!(rt; thin_number(&d, 3, 3) == 78);
    Ok(())
}

#[test]
fn rights_of_a_byte(rt: HostRuntime) {
    for (set, right, expected) in [
        (0b1000_0001, 0, true),
        (0b1000_0001, 1, false),
        (0b1000_0001, 7, true),
        (255, 8, false), // no such right
        (255, 264, false), // not its low byte
    ] {
        assert!(rt; has_right(set, right) == expected, "{right} in {set}");
    }
}

#[test]
fn a_family_of_ones_own(rt: HostRuntime) {
    let own = Unmoving { modulus: 7 };
    assert!(rt; thin_number(&own, 5, 255) == 5);
    assert!(rt; own.modulus() == 7);
}
