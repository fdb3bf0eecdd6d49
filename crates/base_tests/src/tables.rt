//! Examples, with a record of the test's own.
ghost use Rattle.std.specs.Prelude.{false, refl};

use table::{Lent, Record, Table};

/// A number that is in use or not.
#[derive(Clone, Copy)]
struct Slot {
    used: bool,
    number: u8,
}

impl Record for Slot {
    ghost is_live = { λ s. s.used };

    ghost blank_of = { λ s. record { used = false; number = s.number } };

    ghost blank_is_free = { λ _. refl };

    fn live(&self) -> bool {
        self.used
    }

    fn blank(&self) -> Slot {
        Slot {
            used: false,
            number: self.number,
        }
    }
}

const FREE: Slot = Slot {
    used: false,
    number: 0,
};

fn used(number: u8) -> Slot {
    Slot { used: true, number }
}

/// Claims a place and gives it the number.
fn fill(table: &mut Table<&mut [Slot]>, number: u8) -> Option<usize> {
    let place = table.claim()?;
    let _ = table.give(place, used(number));
    Some(place)
}

/// The number of the live record at a place.
fn number_at<S: Lent<Record = Slot>>(table: &Table<S>, place: usize) -> Option<u8> {
    Some(table.find(place)?.number)
}

#[test]
fn claims_go_round(rt: HostRuntime) {
    let mut slots = [FREE; 3];
    let mut table = Table::new(&mut slots[..]);
    for (freed, number, expected) in [
        (3, 10, Some(0)), // no place 3
        (3, 11, Some(1)),
        (0, 12, Some(2)), // not the place just freed
        (3, 13, Some(0)), // round to it
        (3, 14, None), // all are live
        (0, 15, Some(0)), // the last place given
    ] {
        assert!(rt; table.free(freed) == (freed < 3), "{number}");
        assert!(rt; fill(&mut table, number) == expected, "{number}");
    }
}

#[test]
fn freed_records_are_not_found(rt: HostRuntime) {
    let mut slots = [used(1), used(2)];
    let mut table = Table::new(&mut slots[..]);
    assert!(rt; table.free(1));
    assert!(rt; number_at(&table, 0) == Some(1));
    assert!(rt; table.put(0, used(7)));
    assert!(rt; !table.put(2, used(8)));
    for (place, expected) in [(0, Some(7)), (1, None), (2, None)] {
        assert!(rt; number_at(&table, place) == expected, "{place}");
    }
    assert!(rt; slots[1].number == 2, "the blank keeps its number");
}

#[test]
fn places_out_of_range(rt: HostRuntime) {
    let mut slots = [FREE; 1];
    let mut table = Table::new(&mut slots[..]);
    assert!(rt; number_at(&table, 1).is_none());
    assert!(rt; !table.give(1, used(1)));
    assert!(rt; !table.put(1, used(1)));
    assert!(rt; !table.free(1));
    assert!(rt; fill(&mut table, 5) == Some(0), "nothing was given before");
}

#[test]
fn shared_records(rt: HostRuntime) {
    let slots = [used(1), FREE];
    let table = Table::resume(&slots[..], 4);
    assert!(rt; number_at(&table, 0) == Some(1));
    assert!(rt; table.claim() == Some(1), "round from place 0");
    assert!(rt; Table::new(&slots[..0]).claim().is_none(), "no places");
}
