//! Names looked up, and paths walked.
use crate::act::Act;
use crate::bench::{Bench, gate, thinned};
use crate::lend;
use crate::performing::{Done, go_on, perform, perform_all};
use crate::room::{OPEN, masks};
use admission::Denial;
use family::Powers;
use holder::{Capability, Mask, Port};
use memory::{Masks, Memory};
use std::test::Fail;
use store::StoreRefusal;

/// The run, the first capability given after the store's.
const RUN: usize = 1;

/// The directory of its names, given next.
const DIRECTORY: usize = 2;

/// Each of the eight sets of the rights 0, 1 and 2, with the rights that it sees of a row whose
/// masks are aa, cc and f0.
static SEEN: [(u8, u8); 8] = [
    (0, 0),
    (1, 0xaa),
    (2, 0xcc),
    (3, 0xee),
    (4, 0xf0),
    (5, 0xfa),
    (6, 0xfc),
    (7, 0xfe),
];

/// Whether these rights of a directory show so much of the entry under a name. Where none of them
/// can look up, whether the store refuses.
fn shows(
    bench: &Bench<Powers>,
    memory: &Memory,
    directory: Capability,
    bits: u8,
    name: &[u8],
    entry: Capability,
    seen: u8,
) -> Result<bool, Fail> {
    let wanted = if bits & 7 == 0 {
        Err(StoreRefusal::Denied(Denial::RightMissing, 0))
    } else {
        Ok(thinned(entry, seen)?)
    };
    let shown = thinned(directory, bits)?;
    Ok(bench.look_up(memory, shown, name) == wanted)
}

#[test]
fn each_set_of_rights_sees_its_columns(rt: HostRuntime) -> Result<(), Fail> {
    let columns = masks(0xaa, 0xcc, 0xf0);
    let acts = [
        Act::File(b"abc", 11, Ok(1)),
        Act::Directory(13, Ok(4)),
        Act::Thin(RUN, 0x5f, Ok(1)),
        Act::Enter(DIRECTORY, b"run", RUN, columns, Ok(())),
        Act::Enter(DIRECTORY, b"part", 3, columns, Ok(())),
    ];
    let Done {
        bench,
        mut room,
        given,
    } = perform(gate()?, &acts)?;
    let memory = lend!(room);
    let (run, part, directory) = (given.at(RUN), given.at(3), given.at(DIRECTORY));
    for (bits, seen) in SEEN {
        // The other five rights see nothing.
        for bits in [bits, bits | 0xf8] {
            for (name, entry) in [(b"run".as_slice(), run), (b"part", part)] {
                let shows = shows(&bench, &memory, directory, bits, name, entry, seen)?;
                assert!(rt; shows, "{bits} {name:?}");
            }
        }
    }
    Ok(())
}

#[test]
fn a_row_that_shows_no_right() -> Result<(), Fail> {
    let acts = [
        Act::File(b"abc", 11, Ok(1)),
        Act::Directory(13, Ok(4)),
        Act::Enter(DIRECTORY, b"run", RUN, masks(255, 0, 0), Ok(())),
        Act::Thin(DIRECTORY, 2, Ok(4)),
        Act::Thin(RUN, 0, Ok(1)),
        Act::LookUp(3, b"run", Ok(4)),
        Act::Rights(4, 0),
        // It is accepted, though good for nothing.
        Act::Read(4, Err(StoreRefusal::Denied(Denial::RightMissing, 0))),
    ];
    perform_all(&acts)
}

/// Paths of sixteen names, of seventeen, and with a name of 24 bytes.
static LONG_PATHS: [Act; 7] = [
    Act::File(b"abc", 11, Ok(1)),
    Act::Directory(13, Ok(4)),
    Act::Enter(DIRECTORY, b"a", DIRECTORY, OPEN, Ok(())),
    Act::Enter(DIRECTORY, b"abcdefghijklmnopqrstuvwx", RUN, OPEN, Ok(())),
    Act::Walk(DIRECTORY, b"a/a/a/a/a/a/a/a/a/a/a/a/a/a/a/a", Ok(DIRECTORY)),
    Act::Walk(
        DIRECTORY,
        b"a/a/a/a/a/a/a/a/a/a/a/a/a/a/a/a/a",
        Err(StoreRefusal::BadPath),
    ),
    Act::Walk(DIRECTORY, b"a/a/abcdefghijklmnopqrstuvwx", Ok(RUN)),
];

#[test]
fn sixteen_names_are_walked() -> Result<(), Fail> {
    perform_all(&LONG_PATHS)
}

/// No paths: without a name, with an empty one, and with one that is not lawful.
static NO_PATHS: [&[u8]; 9] = [
    b"",
    b"/",
    b"/a",
    b"a/",
    b"a//a",
    b"a b",
    b"a/a\x7f",
    b"a/abcdefghijklmnopqrstuvwxy",
    b"unknown/a b",
];

/// A directory that has a row of itself.
static RING: [Act; 3] = [
    Act::File(b"abc", 11, Ok(1)),
    Act::Directory(13, Ok(4)),
    Act::Enter(DIRECTORY, b"a", DIRECTORY, OPEN, Ok(())),
];

/// Whether the store refuses a walk for its path.
fn is_bad(bench: &Bench<Powers>, memory: &Memory, shown: Capability, path: &[u8]) -> bool {
    bench.walk(memory, shown, path) == Err(StoreRefusal::BadPath)
}

#[test]
fn words_that_are_no_paths(rt: HostRuntime) -> Result<(), Fail> {
    let Done {
        bench,
        mut room,
        given,
    } = perform(gate()?, &RING)?;
    let memory = lend!(room);
    let directory = given.at(DIRECTORY);
    let port = Port { bytes: [9; 6] };
    for path in NO_PATHS {
        for shown in [directory, Capability { port, ..directory }] {
            assert!(rt; is_bad(&bench, &memory, shown, path), "{path:?}");
        }
    }
    Ok(())
}

const ROW_NOT_ACCEPTED: StoreRefusal = StoreRefusal::RowNotAccepted(0);

const NO_DIRECTORY: StoreRefusal = StoreRefusal::Denied(Denial::WrongKind, 2);

const NO_DIRECTORY_DEEPER: StoreRefusal = StoreRefusal::Denied(Denial::WrongKind, 4);

const NO_RIGHT: StoreRefusal = StoreRefusal::Denied(Denial::RightMissing, 2);

/// Masks that show no right that a directory knows.
const SHUT: Masks = Masks {
    works: Mask { bits: 0xf8 },
    inspector: Mask { bits: 0 },
    buyer: Mask { bits: 0 },
};

/// Paths through a directory, and why they lead nowhere. Its rows hold a run, the directory itself
/// as `a`, itself without a right to look up, the store, and a file that is gone.
static FAULTS: [Act; 21] = [
    Act::File(b"abc", 11, Ok(1)),
    Act::Directory(13, Ok(4)),
    Act::File(b"d", 17, Ok(2)),
    Act::Enter(DIRECTORY, b"run", RUN, OPEN, Ok(())),
    Act::Enter(DIRECTORY, b"a", DIRECTORY, OPEN, Ok(())),
    Act::Enter(DIRECTORY, b"shut", DIRECTORY, SHUT, Ok(())),
    Act::Enter(DIRECTORY, b"store", 0, OPEN, Ok(())),
    Act::Enter(DIRECTORY, b"gone", 3, OPEN, Ok(())),
    Act::Destroy(3, Ok(())),
    Act::Walk(DIRECTORY, b"run/x", Err(NO_DIRECTORY)),
    Act::Walk(DIRECTORY, b"a/a/run/a/a", Err(NO_DIRECTORY_DEEPER)),
    Act::Walk(DIRECTORY, b"store/a", Err(NO_DIRECTORY)),
    Act::Walk(DIRECTORY, b"shut/a", Err(NO_RIGHT)),
    Act::Walk(DIRECTORY, b"x", Err(StoreRefusal::NoSuchRow(1))),
    Act::Walk(DIRECTORY, b"x/run", Err(StoreRefusal::NoSuchRow(1))),
    Act::Walk(DIRECTORY, b"a/x/a", Err(StoreRefusal::NoSuchRow(2))),
    Act::Walk(DIRECTORY, b"a/a/x", Err(StoreRefusal::NoSuchRow(3))),
    Act::Walk(DIRECTORY, b"gone", Err(StoreRefusal::RowNotAccepted(1))),
    Act::Walk(DIRECTORY, b"a/gone/x", Err(StoreRefusal::RowNotAccepted(2))),
    Act::Walk(
        DIRECTORY,
        b"a/a/a/a/a/a/a/a/a/a/a/a/a/a/a/x",
        Err(StoreRefusal::NoSuchRow(16)),
    ),
    Act::Walk(DIRECTORY, b"a/run", Ok(RUN)),
];

#[test]
fn faults_on_the_way() -> Result<(), Fail> {
    perform_all(&FAULTS)
}

#[test]
fn a_walk_sees_less_with_each_name() -> Result<(), Fail> {
    let acts = [
        Act::File(b"abc", 11, Ok(1)),
        Act::Directory(13, Ok(4)),
        Act::Directory(17, Ok(5)),
        Act::Enter(DIRECTORY, b"shelf", 3, masks(255, 2, 4), Ok(())),
        Act::Enter(3, b"run", RUN, masks(255, 3, 1), Ok(())),
        Act::Thin(DIRECTORY, 1, Ok(4)),
        Act::Thin(RUN, 255, Ok(1)),
        Act::Walk(4, b"shelf/run", Ok(5)),
        Act::Thin(DIRECTORY, 2, Ok(4)),
        Act::Thin(RUN, 3, Ok(1)),
        Act::Walk(6, b"shelf/run", Ok(7)),
        Act::Thin(DIRECTORY, 4, Ok(4)),
        Act::Thin(RUN, 1, Ok(1)),
        Act::Walk(8, b"shelf/run", Ok(9)),
        Act::Thin(DIRECTORY, 6, Ok(4)),
        Act::Thin(RUN, 3, Ok(1)),
        Act::Walk(10, b"shelf/run", Ok(11)),
    ];
    perform_all(&acts)
}

/// Rows of a revoked run, of one whose number another file has now, of one whose number none has,
/// and of the directory before its own revoke.
static STALE: [Act; 13] = [
    Act::File(b"abc", 11, Ok(1)),
    Act::Directory(13, Ok(4)),
    Act::File(b"d", 17, Ok(2)),
    Act::File(b"e", 19, Ok(3)),
    Act::Enter(DIRECTORY, b"revoked", RUN, OPEN, Ok(())),
    Act::Enter(DIRECTORY, b"taken", 3, OPEN, Ok(())),
    Act::Enter(DIRECTORY, b"gone", 4, OPEN, Ok(())),
    Act::Enter(DIRECTORY, b"own", DIRECTORY, OPEN, Ok(())),
    Act::Revoke(RUN, 23, Ok(1)),
    Act::Destroy(3, Ok(())),
    Act::Destroy(4, Ok(())),
    Act::File(b"f", 29, Ok(2)),
    Act::Revoke(DIRECTORY, 31, Ok(4)),
];

/// The directory of the stale rows with its other secret.
const ANEW: usize = 7;

static TOLD_BUT_NOT_FOUND: [Act; 12] = [
    Act::LookUp(ANEW, b"revoked", Err(ROW_NOT_ACCEPTED)),
    Act::Row(ANEW, 0, Ok(b"revoked")),
    Act::Name(ANEW, 1, Ok(b"revoked")),
    Act::LookUp(ANEW, b"taken", Err(ROW_NOT_ACCEPTED)),
    Act::Row(ANEW, 1, Ok(b"taken")),
    Act::Name(ANEW, 2, Ok(b"taken")),
    Act::LookUp(ANEW, b"gone", Err(ROW_NOT_ACCEPTED)),
    Act::Row(ANEW, 2, Ok(b"gone")),
    Act::Name(ANEW, 3, Ok(b"gone")),
    Act::LookUp(ANEW, b"own", Err(ROW_NOT_ACCEPTED)),
    Act::Row(ANEW, 3, Ok(b"own")),
    Act::Name(ANEW, 4, Ok(b"own")),
];

#[test]
fn stale_rows_are_told_but_not_found() -> Result<(), Fail> {
    let stale = perform(gate()?, &STALE)?;
    go_on(stale, &TOLD_BUT_NOT_FOUND)?;
    Ok(())
}

static LEFT: [Act; 9] = [
    Act::Destroy(ANEW, Err(StoreRefusal::RowsLeft)),
    Act::Remove(ANEW, b"revoked", Ok(())),
    Act::Destroy(ANEW, Err(StoreRefusal::RowsLeft)),
    Act::Remove(ANEW, b"taken", Ok(())),
    Act::Destroy(ANEW, Err(StoreRefusal::RowsLeft)),
    Act::Remove(ANEW, b"gone", Ok(())),
    Act::Destroy(ANEW, Err(StoreRefusal::RowsLeft)),
    Act::Remove(ANEW, b"own", Ok(())),
    Act::Destroy(ANEW, Ok(())),
];

#[test]
fn stale_rows_are_rows_that_are_left() -> Result<(), Fail> {
    let stale = perform(gate()?, &STALE)?;
    go_on(stale, &LEFT)?;
    Ok(())
}
