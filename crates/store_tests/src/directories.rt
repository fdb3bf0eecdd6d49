//! Rows entered into directories, told by place and by object, and removed.
use crate::act::Act;
use crate::asked::{Asked, refused};
use crate::bench::{Bench, gate, not_accepted};
use crate::lend;
use crate::performing::{Done, go_on, perform, perform_all};
use crate::room::{OPEN, are_same_rows, masks, old_row};
use family::Powers;
use holder::{Capability, Port};
use memory::{Masks, Memory, Name, Row, zero_row};
use rows::row_of;
use std::test::Fail;
use store::StoreRefusal;

const NO_SUCH_ROW: StoreRefusal = StoreRefusal::NoSuchRow(0);

/// The run, the first capability given after the store's.
const RUN: usize = 1;

/// The directory of its names, given next.
const DIRECTORY: usize = 2;

static ORDER: [Act; 17] = [
    Act::File(b"abc", 11, Ok(1)),
    Act::Directory(13, Ok(4)),
    Act::EnterAll(DIRECTORY, &[b"a", b"b", b"c"], RUN),
    Act::Names(DIRECTORY, &[b"a", b"b", b"c"]),
    Act::Remove(DIRECTORY, b"b", Ok(())),
    Act::Names(DIRECTORY, &[b"a", b"c"]),
    Act::Vacant(2),
    // Removed already.
    Act::Remove(DIRECTORY, b"b", Err(NO_SUCH_ROW)),
    Act::Enter(DIRECTORY, b"b", RUN, OPEN, Ok(())),
    Act::Names(DIRECTORY, &[b"a", b"c", b"b"]),
    Act::Remove(DIRECTORY, b"b", Ok(())),
    Act::Remove(DIRECTORY, b"a", Ok(())),
    Act::Names(DIRECTORY, &[b"c"]),
    Act::Remove(DIRECTORY, b"c", Ok(())),
    Act::Names(DIRECTORY, &[]),
    Act::Vacant(0),
    Act::Destroy(DIRECTORY, Ok(())),
];

#[test]
fn rows_keep_their_order() -> Result<(), Fail> {
    perform_all(&ORDER)
}

/// Lawful names: of 24 bytes, of the first and the last byte that a name has, and of dots.
const EDGES: [&[u8]; 5] = [b"abcdefghijklmnopqrstuvwx", b"!", b"~", b".", b".."];

static AT_EDGES: [Act; 9] = [
    Act::File(b"abc", 11, Ok(1)),
    Act::Directory(13, Ok(4)),
    Act::EnterAll(DIRECTORY, &EDGES, RUN),
    Act::Names(DIRECTORY, &EDGES),
    Act::LookUp(DIRECTORY, b"abcdefghijklmnopqrstuvwx", Ok(RUN)),
    Act::LookUp(DIRECTORY, b"!", Ok(RUN)),
    Act::LookUp(DIRECTORY, b"~", Ok(RUN)),
    Act::LookUp(DIRECTORY, b".", Ok(RUN)),
    Act::LookUp(DIRECTORY, b"..", Ok(RUN)),
];

#[test]
fn names_at_their_edges() -> Result<(), Fail> {
    perform_all(&AT_EDGES)
}

/// No names: without a byte, with one too many, and with bytes that no name has.
static NO_NAMES: [&[u8]; 8] = [
    b"",
    b"abcdefghijklmnopqrstuvwxy",
    b"/",
    b"a/b",
    b" ",
    b"a b",
    b"a\x7f",
    b"\xe9a",
];

/// A run, and a directory without rows.
static EMPTY: [Act; 2] = [Act::File(b"abc", 11, Ok(1)), Act::Directory(13, Ok(4))];

#[test]
fn words_that_are_no_names(rt: HostRuntime) -> Result<(), Fail> {
    let Done {
        bench,
        mut room,
        given,
    } = perform(gate()?, &EMPTY)?;
    let mut memory = lend!(room);
    let (run, directory) = (given.at(RUN), given.at(DIRECTORY));
    let port = Port { bytes: [9; 6] };
    for name in NO_NAMES {
        for shown in [directory, Capability { port, ..directory }] {
            for asked in [Asked::Enter, Asked::Remove, Asked::LookUp] {
                let came = refused(&bench, &mut memory, asked, shown, name, run);
                assert!(rt; came == Some(StoreRefusal::BadName), "{asked:?} {name:?}");
            }
        }
    }
    Ok(())
}

static PAST_THE_END: [Act; 10] = [
    Act::File(b"abc", 11, Ok(1)),
    Act::Directory(13, Ok(4)),
    Act::EnterAll(DIRECTORY, &[b"a", b"b"], RUN),
    Act::Names(DIRECTORY, &[b"a", b"b"]),
    Act::Row(DIRECTORY, 2, Err(NO_SUCH_ROW)),
    Act::Row(DIRECTORY, 15, Err(NO_SUCH_ROW)),
    Act::Row(DIRECTORY, 16, Err(NO_SUCH_ROW)),
    Act::Row(DIRECTORY, 256, Err(NO_SUCH_ROW)),
    Act::Row(DIRECTORY, 4_294_967_296, Err(NO_SUCH_ROW)),
    Act::Row(DIRECTORY, u64::MAX, Err(NO_SUCH_ROW)),
];

#[test]
fn rows_past_the_end() -> Result<(), Fail> {
    perform_all(&PAST_THE_END)
}

static NAMED: [Act; 14] = [
    Act::File(b"abc", 11, Ok(1)),
    Act::Directory(13, Ok(4)),
    Act::File(b"d", 17, Ok(2)),
    Act::Thin(RUN, 1, Ok(1)),
    Act::Enter(DIRECTORY, b"first", RUN, OPEN, Ok(())),
    Act::Enter(DIRECTORY, b"second", 4, OPEN, Ok(())),
    Act::Enter(DIRECTORY, b"third", DIRECTORY, OPEN, Ok(())),
    Act::Name(DIRECTORY, 1, Ok(b"second")),
    Act::Name(DIRECTORY, 4, Ok(b"third")),
    // The other file, the store, and an object whose number is like the run's.
    Act::Name(DIRECTORY, 2, Err(NO_SUCH_ROW)),
    Act::Name(DIRECTORY, 0, Err(NO_SUCH_ROW)),
    Act::Name(DIRECTORY, 0x01_00_01, Err(NO_SUCH_ROW)),
    Act::Remove(DIRECTORY, b"second", Ok(())),
    Act::Name(DIRECTORY, 1, Ok(b"first")),
];

#[test]
fn the_last_name_of_an_object() -> Result<(), Fail> {
    perform_all(&NAMED)
}

/// The names of as many rows as a directory has room for.
const SIXTEEN: [&[u8]; 16] = [
    b"a", b"b", b"c", b"d", b"e", b"f", b"g", b"h", b"i", b"j", b"k", b"l", b"m", b"n", b"o", b"p",
];

/// A directory that is full.
static FILLED: [Act; 4] = [
    Act::File(b"abc", 11, Ok(1)),
    Act::Directory(13, Ok(4)),
    Act::EnterAll(DIRECTORY, &SIXTEEN, RUN),
    Act::Names(DIRECTORY, &SIXTEEN),
];

/// Refused there.
static ONE_MORE: [Act; 2] = [
    Act::Enter(DIRECTORY, b"q", RUN, OPEN, Err(StoreRefusal::DirectoryFull)),
    // A taken name in a full directory.
    Act::Enter(DIRECTORY, b"p", RUN, OPEN, Err(StoreRefusal::NameTaken)),
];

/// Room for a row again.
static ONE_LESS: [Act; 2] = [
    Act::Remove(DIRECTORY, b"a", Ok(())),
    Act::Enter(DIRECTORY, b"q", RUN, OPEN, Ok(())),
];

#[test]
fn sixteen_rows_and_no_more(rt: HostRuntime) -> Result<(), Fail> {
    let filled = perform(gate()?, &FILLED)?;
    let before = filled.room;
    let refused = go_on(filled, &ONE_MORE)?;
    assert!(rt; refused.room.is_same(&before));
    go_on(refused, &ONE_LESS)?;
    Ok(())
}

/// A full directory and an empty one, a file that is gone, and a revoked file.
static NOT_ENTERED: [Act; 8] = [
    Act::File(b"abc", 11, Ok(1)),
    Act::Directory(13, Ok(4)),
    Act::Directory(17, Ok(5)),
    Act::EnterAll(DIRECTORY, &SIXTEEN, RUN),
    Act::File(b"d", 19, Ok(2)),
    Act::Destroy(4, Ok(())),
    Act::File(b"e", 23, Ok(3)),
    Act::Revoke(5, 29, Ok(3)),
];

#[test]
fn capabilities_that_are_not_entered(rt: HostRuntime) -> Result<(), Fail> {
    let Done {
        bench,
        mut room,
        given,
    } = perform(gate()?, &NOT_ENTERED)?;
    let mut memory = lend!(room);
    let (directory, other) = (given.at(DIRECTORY), given.at(3));
    let [port, object, check, past] = not_accepted(given.at(RUN));
    let wanted = Some(StoreRefusal::EntryNotAccepted);
    for entry in [port.0, object.0, check.0, past.0, given.at(4), given.at(5)] {
        // A new name, a taken one in a full directory, and a new one in a full directory.
        for (shown, name) in [(other, b"a"), (directory, b"a"), (directory, b"q")] {
            let came = refused(&bench, &mut memory, Asked::Enter, shown, name, entry);
            assert!(rt; came == wanted, "{entry:?}");
        }
    }
    assert_eq!(rt; bench.row(&memory, other, 0).err(), Some(NO_SUCH_ROW));
    Ok(())
}

/// The row that the store writes for a capability entered under a lawful name.
fn written(name: &[u8], entry: Capability, masks: Masks) -> Row {
    match Name::new(name) {
        Some(name) => row_of(name, entry, masks),
        None => zero_row(),
    }
}

/// Whether the row at a place of all rows is this one.
fn is_row(memory: &Memory, place: usize, wanted: &Row) -> bool {
    match memory.rows.get(place) {
        Some(row) => are_same_rows(row, wanted),
        None => false,
    }
}

/// A run and a directory, and the run thinned to two masks.
static PARTS: [Act; 4] = [
    Act::File(b"abc", 11, Ok(1)),
    Act::Directory(13, Ok(4)),
    Act::Thin(RUN, 2, Ok(1)),
    Act::Thin(RUN, 0, Ok(1)),
];

/// Enters a capability under a name; returns whether the row at this place holds just that.
fn is_kept(
    bench: &Bench<Powers>,
    memory: &mut Memory,
    directory: Capability,
    place: usize,
    name: &[u8],
    (entry, masks): (Capability, Masks),
) -> bool {
    bench.enter(memory, directory, name, entry, masks) == Ok(())
        && is_row(memory, place, &written(name, entry, masks))
}

#[test]
fn what_is_entered_is_kept_as_it_is(rt: HostRuntime) -> Result<(), Fail> {
    let Done {
        bench,
        mut room,
        given,
    } = perform(gate()?, &PARTS)?;
    let mut memory = lend!(room);
    let (directory, owner) = (given.at(DIRECTORY), bench.owner);
    let (own, store) = ((directory, masks(0, 0, 0)), (owner, masks(255, 0, 1)));
    let (part, none) = ((given.at(3), masks(1, 2, 4)), (given.at(4), OPEN));
    assert!(rt; is_kept(&bench, &mut memory, directory, 0, b"own", own));
    assert!(rt; is_kept(&bench, &mut memory, directory, 1, b"store", store));
    assert!(rt; is_kept(&bench, &mut memory, directory, 2, b"part", part));
    assert!(rt; is_kept(&bench, &mut memory, directory, 3, b"none", none));
    Ok(())
}

/// Two directories with rows of the run.
static TWO_DIRECTORIES: [Act; 5] = [
    Act::File(b"abc", 11, Ok(1)),
    Act::Directory(13, Ok(4)),
    Act::Directory(17, Ok(5)),
    Act::EnterAll(DIRECTORY, &[b"a", b"b"], RUN),
    Act::EnterAll(3, &[b"c"], RUN),
];

static ENTERED: [Act; 1] = [Act::Enter(DIRECTORY, b"d", 3, OPEN, Ok(()))];

static REMOVED: [Act; 1] = [Act::Remove(DIRECTORY, b"a", Ok(()))];

static ENTERED_INTO_THE_OTHER: [Act; 1] = [Act::Enter(3, b"e", RUN, OPEN, Ok(()))];

#[test]
fn all_else_stays_as_it_was(rt: HostRuntime) -> Result<(), Fail> {
    let mut before = perform(gate()?, &TWO_DIRECTORIES)?;
    let (run, other) = (before.given.at(RUN), before.given.at(3));
    // Rows behind the counted ones may hold anything.
    before.room.rows[4] = old_row();
    before.room.rows[17] = old_row();
    let mut wanted = before.room;
    let entered = go_on(before, &ENTERED)?;
    wanted.rows[2] = written(b"d", other, OPEN);
    wanted.directories[0].count = 3;
    assert!(rt; entered.room.is_same(&wanted), "entered");
    let removed = go_on(entered, &REMOVED)?;
    wanted.rows[0] = written(b"b", run, OPEN);
    wanted.rows[1] = written(b"d", other, OPEN);
    wanted.rows[2] = zero_row();
    wanted.directories[0].count = 2;
    assert!(rt; removed.room.is_same(&wanted), "removed");
    let last = go_on(removed, &ENTERED_INTO_THE_OTHER)?;
    wanted.rows[17] = written(b"e", run, OPEN);
    wanted.directories[1].count = 2;
    assert!(rt;
        last.room.is_same(&wanted),
        "entered into the other directory"
    );
    Ok(())
}
