//! Tests as tables of acts, done one after the other.
use crate::act::Act;
use crate::bench::{Bench, gate};
use crate::given::Given;
use crate::lend;
use crate::room::{OPEN, SmallRoom, are_same_rows, old_row};
use family::CommutingFamily;
use holder::{Capability, Check, Mask, Object};
use memory::{Memory, Row, zero_row};
use runs::Gate;
use std::test::Fail;
use store::StoreRefusal;

/// The capability, thinned to a mask. No act expects a refusal of the holder, so any of the store's
/// stands for one.
fn thin<F: CommutingFamily + Drop>(
    bench: &Bench<F>,
    capability: Capability,
    bits: u8,
) -> Result<Capability, StoreRefusal> {
    match capability.thin_to(bench.store.family(), Mask { bits }) {
        Ok(thinned) => Ok(thinned),
        Err(_) => Err(StoreRefusal::UnfitSecret),
    }
}

fn is_check(capability: Capability, number: u64) -> bool {
    capability.check.number() == number
}

/// A capability with the check of a number, if it is one.
fn with_check(capability: Capability, number: u64) -> Capability {
    match Check::new(number) {
        Some(check) => Capability {
            check,
            ..capability
        },
        None => old_row().capability,
    }
}

/// The object of a number, if there is one.
fn object(number: u64) -> Object {
    match Object::new(number) {
        Some(object) => object,
        None => old_row().capability.object,
    }
}

fn begins_with(area: &[u8], bytes: &[u8]) -> bool {
    area.get(..bytes.len()) == Some(bytes)
}

/// Whether the record at a place says that its file begins there.
fn starts(memory: &Memory, place: usize, start: u64) -> bool {
    match memory.files.get(place) {
        Some(file) => file.start == start,
        None => false,
    }
}

/// Whether the row at a place of all rows is zeros.
fn is_vacant(memory: &Memory, place: usize) -> bool {
    match memory.rows.get(place) {
        Some(row) => are_same_rows(row, &zero_row()),
        None => false,
    }
}

/// Whether the rows of a directory have these names, in this order, and no more.
fn has_names<F: CommutingFamily + Drop>(
    bench: &Bench<F>,
    memory: &Memory,
    directory: Capability,
    names: &[&[u8]],
) -> bool {
    for (n, name) in (0..).zip(names) {
        if bench.row(memory, directory, n) != Ok(*name) {
            return false;
        }
    }
    let end = bench.row(memory, directory, names.len() as u64);
    end.err() == Some(StoreRefusal::NoSuchRow(0))
}

/// Enters a capability under each of these names; returns whether the store took them all.
fn are_entered<F: CommutingFamily + Drop>(
    bench: &Bench<F>,
    memory: &mut Memory,
    directory: Capability,
    names: &[&[u8]],
    entry: Capability,
) -> bool {
    for name in names {
        if bench.enter(memory, directory, name, entry, OPEN).is_err() {
            return false;
        }
    }
    true
}

/// Does an act, and returns whether the answer is the one wanted.
fn is_met<F: CommutingFamily + Drop>(
    bench: &mut Bench<F>,
    memory: &mut Memory,
    given: &mut Given,
    act: Act,
) -> bool {
    match act {
        Act::File(bytes, secret, number) => {
            let came = bench.file(memory, bytes, secret);
            given.keep(came) == number
        }
        Act::Directory(secret, number) => {
            let came = bench.directory(memory, secret);
            given.keep(came) == number
        }
        Act::Revoke(n, secret, number) => {
            let came = bench.revoke(memory, given.at(n), secret);
            given.keep(came) == number
        }
        Act::Thin(n, bits, number) => {
            let came = thin(bench, given.at(n), bits);
            given.keep(came) == number
        }
        Act::Destroy(n, done) => bench.destroy(memory, given.at(n)) == done,
        Act::Enter(n, name, entry, masks, done) => {
            bench.enter(memory, given.at(n), name, given.at(entry), masks) == done
        }
        Act::EnterAll(n, names, entry) => {
            are_entered(bench, memory, given.at(n), names, given.at(entry))
        }
        Act::Remove(n, name, done) => bench.remove(memory, given.at(n), name) == done,
        _ => is_seen(bench, memory, given, act),
    }
}

/// Does an act that changes nothing, and returns whether the answer is the one wanted.
fn is_seen<F: CommutingFamily + Drop>(
    bench: &Bench<F>,
    memory: &Memory,
    given: &Given,
    act: Act,
) -> bool {
    match act {
        Act::Size(n, size) => bench.size(memory, given.at(n)) == size,
        Act::SizeBy(n, check, size) => bench.size(memory, with_check(given.at(n), check)) == size,
        Act::Read(n, bytes) => bench.read(memory, given.at(n)) == bytes,
        Act::Row(n, row, name) => bench.row(memory, given.at(n), row) == name,
        Act::Name(n, number, name) => bench.name(memory, given.at(n), object(number)) == name,
        Act::LookUp(n, name, found) => given.is(bench.look_up(memory, given.at(n), name), found),
        Act::Walk(n, path, found) => given.is(bench.walk(memory, given.at(n), path), found),
        Act::Rights(n, bits) => given.at(n).rights.bits == bits,
        Act::Check(n, number) => is_check(given.at(n), number),
        Act::Same(a, b) => given.at(a) == given.at(b),
        Act::Area(bytes) => begins_with(memory.area, bytes),
        Act::Start(place, start) => starts(memory, place, start),
        Act::Vacant(place) => is_vacant(memory, place),
        Act::Names(n, names) => has_names(bench, memory, given.at(n), names),
        _ => false,
    }
}

/// A store after some acts, its memory, and the capabilities given.
#[derive(Drop)]
pub struct Done<F> {
    pub bench: Bench<F>,
    pub room: SmallRoom,
    pub given: Given,
}

/// A store just opened, before any act.
fn opened<F: CommutingFamily + Drop>(gate: Gate<F>) -> Result<Done<F>, Fail> {
    let mut room = SmallRoom::new();
    let mut memory = lend!(room);
    let bench = Bench::new(gate, &mut memory)?;
    let mut given = Given {
        all: [old_row().capability; 16],
        count: 0,
    };
    let _ = given.keep(Ok(bench.owner));
    Ok(Done { bench, room, given })
}

/// Does the acts one after the other, over a store just opened.
pub fn perform<F: CommutingFamily + Drop>(gate: Gate<F>, acts: &[Act]) -> Result<Done<F>, Fail> {
    go_on(opened(gate)?, acts)
}

/// Does further acts. The error names the place of the first of which something else came.
pub fn go_on<F: CommutingFamily + Drop>(done: Done<F>, acts: &[Act]) -> Result<Done<F>, Fail> {
    let Done {
        mut bench,
        mut room,
        mut given,
    } = done;
    let mut memory = lend!(room);
    for (i, act) in acts.iter().enumerate() {
        if !is_met(&mut bench, &mut memory, &mut given, *act) {
            return Err(Fail::new(format_args!("act {i}")));
        }
    }
    Ok(Done { bench, room, given })
}

/// Does the acts one after the other, over a store of powers just opened.
pub fn perform_all(acts: &[Act]) -> Result<(), Fail> {
    perform(gate()?, acts)?;
    Ok(())
}
