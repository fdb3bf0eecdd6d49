//! Lines that are steps or open a store, and the first faults of others.
use family::FamilyKind;
use lines::{Misread, Pocket, Step, read_step, read_store_line};

/// The place of the first fault of a step, if there is one.
fn fault(line: &[u8]) -> Option<u8> {
    match read_step(line) {
        Ok(_) => None,
        Err(Misread { place }) => Some(place),
    }
}

/// The place of the first fault of a line that has to open a store, if there is one.
fn store_fault(line: &[u8]) -> Option<u8> {
    match read_store_line(line) {
        Ok(_) => None,
        Err(Misread { place }) => Some(place),
    }
}

#[test]
fn every_verb_is_read(rt: HostRuntime) {
    for line in [
        b"file A0 7 text B1".as_slice(),
        b"dir A0 7 B1",
        b"read H7",
        b"size H7",
        b"drop A0 9 A1",
        b"give A0 A1",
        b"enter A0 pump A1 01 ff 80",
        b"out A0 pump",
        b"look A0 pump A1",
        b"walk A0 pumps/7 A1",
        b"row A0 999999999999999",
        b"name A0 A1",
        b"kill A0",
        b"new A0 7 A1",
    ] {
        assert!(rt; fault(line).is_none(), "{line:?}");
        assert!(rt; store_fault(line) == Some(1), "{line:?}");
    }
}

#[test]
fn a_store_is_read(rt: HostRuntime) {
    let line = b"store D 3631 0000000000ff 4".as_slice();
    let is_so = match read_store_line(line) {
        Ok(store) => {
            let port = store.port;
            store.family == FamilyKind::Dickson
                && store.modulus == 3631
                && port == [0, 0, 0, 0, 0, 255]
                && store.secret == 4
        }
        Err(_) => false,
    };
    assert!(rt; is_so);
    assert!(rt; fault(line) == Some(1), "it is no step");
}

fn pocket(index: u8, number: u8) -> Pocket {
    Pocket { index, number }
}

#[test]
fn an_entry_is_read(rt: HostRuntime) {
    let is_so = match read_step(b"enter A1 pump C7 01 02 ff") {
        Ok(task) => {
            task.presented == pocket(1, 2) && task.target.is_none() && is_entry(task.step)
        }
        Err(_) => false,
    };
    assert!(rt; is_so);
}

/// Whether a step enters what pocket C7 holds as `pump`, word 3, with the masks 1, 2 and 255.
fn is_entry(step: Step) -> bool {
    match step {
        Step::Enter {
            name,
            entry,
            works,
            inspector,
            buyer,
        } => {
            name.bytes == b"pump".as_slice()
                && name.number == 3
                && entry == pocket(23, 4)
                && [works, inspector, buyer] == [1, 2, 255]
        }
        _ => false,
    }
}

/// The pocket that a line presents, and the one that it fills.
fn pockets(line: &[u8]) -> Option<(Pocket, Option<Pocket>)> {
    match read_step(line) {
        Ok(task) => Some((task.presented, task.target)),
        Err(_) => None,
    }
}

#[test]
fn pockets_are_read_with_the_numbers_of_their_words(rt: HostRuntime) {
    for (line, presented, target) in [
        (b"read A0".as_slice(), pocket(0, 2), None),
        (b"read A7", pocket(7, 2), None),
        (b"read H7", pocket(63, 2), None),
        (b"name B1 A0", pocket(9, 2), None),
        (b"give B1 A0", pocket(9, 2), Some(pocket(0, 3))),
        (b"new B1 7 A0", pocket(9, 2), Some(pocket(0, 4))),
        (b"file B1 7 text A0", pocket(9, 2), Some(pocket(0, 5))),
    ] {
        assert!(rt; pockets(line) == Some((presented, target)), "{line:?}");
    }
}

#[test]
fn words_that_are_no_pockets(rt: HostRuntime) {
    for line in [
        b"read I0".as_slice(),
        b"read @0",
        b"read A8",
        b"read A/",
        b"read a0",
        b"read A",
        b"read A00",
    ] {
        assert!(rt; fault(line) == Some(2), "{line:?}");
    }
}

#[test]
fn whole_lines_are_judged_first(rt: HostRuntime) {
    let long = [b'a'; 256];
    for (line, place) in [
        (b" ".as_slice(), 0),
        (b"fly  A0", 0),
        (b"read A0 ", 0),
        (b" read A0", 0),
        (b"fly\tA0", 0),
        (b"read A0\r", 0),
        (b"fly\x7f", 0),
        (b"fly\x1fA0", 0),
        (&long, 0),
        (&long[..255], 1),
        (b"", 1),
    ] {
        assert!(rt; fault(line) == Some(place), "{line:?}");
        assert!(rt; store_fault(line) == Some(place), "{line:?}");
    }
}

#[test]
fn first_words_are_judged_next(rt: HostRuntime) {
    for line in [
        b"fly".as_slice(),
        b"Read A0",
        b"reads A0",
        b"rea A0",
        b"A0 read",
        b"fly A9 0F",
        b"store Q 07 0 +",
    ] {
        assert!(rt; fault(line) == Some(1), "{line:?}");
    }
}

#[test]
fn faults_are_told_from_the_left(rt: HostRuntime) {
    for (line, place) in [
        (b"read".as_slice(), 2),
        (b"read A0 A1", 3),
        (b"drop A0 1000000000000000 A1", 3),
        (b"drop A0 x A8", 3),
        (b"drop A0 1", 4),
        (b"drop A0 1 A1 A2 A3", 5),
        (b"enter A0 pump A1 1 02 03", 5),
        (b"enter A0 pump A1 01 0F 03", 6),
        (b"enter A0 pump A1 01 02 003", 7),
        (b"enter A0 pump A1 01 02 03 04", 8),
        (b"out A0", 3),
        (b"name A0 pump", 3),
    ] {
        assert!(rt; fault(line) == Some(place), "{line:?}");
    }
}

#[test]
fn faults_of_store_lines_are_told_from_the_left(rt: HostRuntime) {
    for (line, place) in [
        (b"store Q 07 0 +".as_slice(), 2),
        (b"store PP 7 0 +", 2),
        (b"store p 7 0 +", 2),
        (b"store P 07 0 +", 3),
        (b"store P 7 0123456789aB 0", 4),
        (b"store P 7 0123456789a 0", 4),
        (b"store P 7 0123456789ab", 5),
        (b"store P 7 0123456789ab 0 0", 6),
    ] {
        assert!(rt; store_fault(line) == Some(place), "{line:?}");
    }
}
