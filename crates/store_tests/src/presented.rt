//! Capabilities presented to a directory, by each request to one: the order of the refusals.
use crate::act::Act;
use crate::asked::{ALL, Asked, refused};
use crate::bench::{Bench, gate, not_accepted, thinned};
use crate::lend;
use crate::performing::{Done, perform};
use crate::room::{OPEN, SmallRoom};
use admission::Denial;
use family::Powers;
use holder::{Capability, Port};
use memory::Memory;
use std::test::Fail;
use store::StoreRefusal;

/// The run, the first capability given after the store's.
const RUN: usize = 1;

/// The directory that has a row of it, given next.
const DIRECTORY: usize = 2;

static FILLED: [Act; 3] = [
    Act::File(b"abc", 11, Ok(1)),
    Act::Directory(13, Ok(4)),
    Act::Enter(DIRECTORY, b"run", RUN, OPEN, Ok(())),
];

/// The refusal of a request with `/`, which is no name and no path. The other directory counts so
/// many rows, and the area has so many bytes.
fn refused_over(
    bench: &Bench<Powers>,
    mut room: SmallRoom,
    count: u64,
    area: usize,
    asked: Asked,
    shown: Capability,
    entry: Capability,
) -> Option<StoreRefusal> {
    room.directories[1].count = count;
    let mut memory = Memory {
        files: &mut room.files,
        directories: &mut room.directories,
        rows: &mut room.rows,
        area: room.area.get_mut(..area)?,
    };
    refused(bench, &mut memory, asked, shown, b"/", entry)
}

/// The refusal of that name over sound memory, with a capability of another store.
fn refused_by_name(asked: Asked) -> Option<StoreRefusal> {
    match asked {
        Asked::Enter | Asked::Remove | Asked::LookUp => Some(StoreRefusal::BadName),
        Asked::Walk => Some(StoreRefusal::BadPath),
        Asked::Row | Asked::Name => asked.denied(Denial::WrongPort),
    }
}

#[test]
fn sizes_soundness_and_form_come_first(rt: HostRuntime) -> Result<(), Fail> {
    let Done { bench, room, given } = perform(gate()?, &FILLED)?;
    let run = given.at(RUN);
    let port = Port { bytes: [9; 6] };
    let shown = Capability {
        port,
        ..given.at(DIRECTORY)
    };
    for asked in ALL {
        let cases = [
            (17, 15, Some(StoreRefusal::WrongSizes)),
            (17, 16, Some(StoreRefusal::UnsoundMemory)),
            (0, 16, refused_by_name(asked)),
        ];
        for (count, area, wanted) in cases {
            let came = refused_over(&bench, room, count, area, asked, shown, run);
            assert!(rt; came == wanted, "{asked:?} {wanted:?}");
        }
    }
    Ok(())
}

/// A name for which the store grants the request, where the directory has a row of the run.
fn good_name(asked: Asked) -> &'static [u8] {
    match asked {
        Asked::Enter => b"new",
        _ => b"run",
    }
}

/// The refusal of a request with a directory's capability thinned to a mask, if there is one.
fn refused_within(
    bench: &Bench<Powers>,
    mut room: SmallRoom,
    asked: Asked,
    directory: Capability,
    bits: u8,
    entry: Capability,
) -> Result<Option<StoreRefusal>, Fail> {
    let mut memory = lend!(room);
    let shown = thinned(directory, bits)?;
    let name = good_name(asked);
    Ok(refused(bench, &mut memory, asked, shown, name, entry))
}

#[test]
fn one_right_alone(rt: HostRuntime) -> Result<(), Fail> {
    let Done { bench, room, given } = perform(gate()?, &FILLED)?;
    let (run, directory) = (given.at(RUN), given.at(DIRECTORY));
    for asked in ALL {
        for bits in [1, 2, 4, 8, 16, 32, 64, 128] {
            let came = refused_within(&bench, room, asked, directory, bits, run)?;
            let wanted = if bits & asked.rights() == 0 {
                asked.denied(Denial::RightMissing)
            } else {
                None
            };
            assert!(rt; came == wanted, "{asked:?} {bits}");
        }
    }
    Ok(())
}

/// A filled directory, and a file that is gone.
static GONE: [Act; 5] = [
    Act::File(b"abc", 11, Ok(1)),
    Act::Directory(13, Ok(4)),
    Act::Enter(DIRECTORY, b"run", RUN, OPEN, Ok(())),
    Act::File(b"d", 17, Ok(2)),
    Act::Destroy(3, Ok(())),
];

/// A name that is unknown, or taken where the request enters it.
fn bad_name(asked: Asked) -> &'static [u8] {
    match asked {
        Asked::Enter => b"run",
        _ => b"unknown",
    }
}

/// Capabilities with which the store denies a request to a directory, each with the denial.
fn denied(
    asked: Asked,
    directory: Capability,
    run: Capability,
    owner: Capability,
) -> Result<[(Capability, Denial); 8], Fail> {
    let [port, object, check, past] = not_accepted(directory);
    let without = thinned(directory, 255 - asked.rights())?;
    Ok([
        port,
        object,
        check,
        past,
        (run, Denial::WrongKind),
        (thinned(run, 0)?, Denial::WrongKind),
        (owner, Denial::WrongKind),
        (without, Denial::RightMissing),
    ])
}

#[test]
fn faults_in_order(rt: HostRuntime) -> Result<(), Fail> {
    let Done {
        bench,
        mut room,
        given,
    } = perform(gate()?, &GONE)?;
    let (run, directory, gone) = (given.at(RUN), given.at(DIRECTORY), given.at(3));
    let before = room;
    let mut memory = lend!(room);
    // With a bad name and a bad entry, so that each later fault is there too.
    for asked in ALL {
        for (shown, denial) in denied(asked, directory, run, bench.owner)? {
            let came = refused(&bench, &mut memory, asked, shown, bad_name(asked), gone);
            assert!(rt; came == asked.denied(denial), "{asked:?} {denial:?}");
        }
    }
    assert!(rt; room.is_same(&before));
    Ok(())
}
