//! Families that show what the built-in ones do not: no secret is fit, or two secrets are thinned
//! to the same number.
ghost use Rattle.std.specs.Int.Bits.{bit_and};
ghost use Rattle.std.specs.Prelude.{◌≤◌, ◌-◌, ◌^◌, refl};
ghost use Rattle.std.proofs.Common.{arith};
ghost use Rattle.store_tests.specs.Masking.{masks_commute, masked_below};

use crate::act::Act;
use crate::bench::PORT;
use crate::lend;
use crate::performing::perform;
use crate::room::{SmallRoom, masks};
use admission::Denial;
use family::CommutingFamily;
use memory::Memory;
use runs::{Gate, open};
use secret::{SETS, Secret};
use std::test::Fail;
use store::StoreRefusal;

/// The identity over 1000: lawful, though no secret is fit in it.
#[derive(Clone, Copy)]
pub struct Unmoving;

impl CommutingFamily for Unmoving {
    const LETTER: char = 'I';

    ghost LETTER = { 73 };

    ghost meaning = { λ _. record { modulus = 1000; function = λ k v. v } };

    ghost laws = { λ _. record {
      least = omega arith;
      most = omega arith;
      within = λ k v p h. h;
      commutes = λ j k v p q h. refl;
    } };

    fn modulus(&self) -> u64 {
        1000
    }

    fn value(&self, _k: u64, v: u64) -> u64 {
        v
    }
}

/// Numbers of nine bits, of which f_k clears bits k and 8: lawful, but not one to one.
#[derive(Clone, Copy)]
pub struct Clearing;

impl CommutingFamily for Clearing {
    const LETTER: char = 'C';

    ghost LETTER = { 67 };

    ghost meaning = { λ _. record { modulus = 512; function = λ k v. bit_and v (255 - 2 ^ k) } };

    ghost laws = { λ _. record {
      least = omega arith;
      most = omega arith;
      within = λ k v p h. masked_below k v h;
      commutes = λ j k v p q h. masks_commute j k v;
    } };

    fn modulus(&self) -> u64 {
        512
    }

    fn value(&self, k: u64, v: u64) -> u64 {
        v & (255 - (1 << k))
    }
}

/// The refusal of a store over the identity, if there is one.
fn refused_over_the_identity(memory: &mut Memory, scratch: &mut [u64]) -> Option<StoreRefusal> {
    let gate = Gate {
        family: Unmoving,
        port: PORT,
        secret: Secret::new(7),
    };
    open(gate, memory, scratch).err()
}

#[test]
fn no_secret_is_fit_in_the_identity(rt: HostRuntime) {
    let mut room = SmallRoom::new();
    let mut memory = lend!(room);
    let mut scratch = [9; SETS];
    let refused = refused_over_the_identity(&mut memory, &mut scratch);
    assert_eq!(rt; refused, Some(StoreRefusal::UnfitSecret));
    assert!(rt; scratch == [0; SETS], "the scratch is wiped");
    assert!(rt; room.is_same(&SmallRoom::new()), "memory is as it was");
}

/// A store of numbers of nine bits.
fn clearing_gate() -> Gate<Clearing> {
    Gate {
        family: Clearing,
        port: PORT,
        secret: Secret::new(255),
    }
}

static SHARED: [Act; 9] = [
    Act::File(b"abc", 255, Ok(1)),
    Act::Thin(1, 1, Ok(1)),
    Act::Check(2, 1),
    Act::Read(2, Ok(b"abc")),
    Act::Revoke(1, 511, Ok(1)),
    // The old owner capability.
    Act::Read(1, Err(StoreRefusal::Denied(Denial::WrongCheck, 0))),
    Act::Read(2, Ok(b"abc")),
    // The same sixteen bytes.
    Act::Thin(3, 1, Ok(1)),
    Act::Same(4, 2),
];

#[test]
fn two_secrets_share_what_they_are_thinned_to() -> Result<(), Fail> {
    perform(clearing_gate(), &SHARED)?;
    Ok(())
}

#[test]
fn the_whole_capability_of_a_row_is_judged() -> Result<(), Fail> {
    let acts = [
        Act::File(b"abc", 255, Ok(1)),
        Act::Directory(255, Ok(4)),
        Act::Enter(2, b"run", 1, masks(1, 1, 1), Ok(())),
        Act::Thin(1, 1, Ok(1)),
        Act::LookUp(2, b"run", Ok(3)),
        Act::Revoke(1, 511, Ok(1)),
        // What the row showed is still accepted.
        Act::Read(3, Ok(b"abc")),
        // What it holds is not.
        Act::LookUp(2, b"run", Err(StoreRefusal::RowNotAccepted(0))),
        Act::Walk(2, b"run", Err(StoreRefusal::RowNotAccepted(1))),
    ];
    perform(clearing_gate(), &acts)?;
    Ok(())
}
