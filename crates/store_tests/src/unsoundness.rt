//! Memory spoilt between two requests, in each way that there is: refused, and left as it is.
use crate::act::Act;
use crate::bench::{MODULUS, gate};
use crate::performing::{Done, go_on, perform};
use crate::room::old_row;
use family::Powers;
use holder::{Capability, Check, Port};
use memory::{DirectoryRecord, FileRecord, Row};
use secret::Secret;
use std::test::Fail;
use store::StoreRefusal;

/// A way in which memory is not sound.
#[derive(Clone, Copy, Debug)]
enum Flaw {
    SecretOfAFile,
    SecretOfADirectory,
    PastTheArea,
    PastAnyNumber,
    SharedByte,
    SeventeenRows,
    NoName,
    LongName,
    Slash,
    SameNames,
    OtherPort,
    Check,
}

static FLAWS: [Flaw; 12] = [
    Flaw::SecretOfAFile,
    Flaw::SecretOfADirectory,
    Flaw::PastTheArea,
    Flaw::PastAnyNumber,
    Flaw::SharedByte,
    Flaw::SeventeenRows,
    Flaw::NoName,
    Flaw::LongName,
    Flaw::Slash,
    Flaw::SameNames,
    Flaw::OtherPort,
    Flaw::Check,
];

/// The file with a flaw. Without one, it is the first byte of the area.
fn spoilt_file(flaw: Flaw, file: FileRecord) -> FileRecord {
    match flaw {
        Flaw::SecretOfAFile => FileRecord {
            secret: Secret::new(MODULUS),
            ..file
        },
        Flaw::PastTheArea => FileRecord { length: 17, ..file },
        Flaw::PastAnyNumber => FileRecord {
            start: u64::MAX,
            ..file
        },
        Flaw::SharedByte => FileRecord { length: 2, ..file },
        _ => file,
    }
}

/// The directory with a flaw. Without one, it has two rows.
fn spoilt_directory(flaw: Flaw, directory: DirectoryRecord) -> DirectoryRecord {
    match flaw {
        Flaw::SecretOfADirectory => DirectoryRecord {
            secret: Secret::new(MODULUS),
            ..directory
        },
        Flaw::SeventeenRows => DirectoryRecord {
            count: 17,
            ..directory
        },
        _ => directory,
    }
}

/// The row with a flaw. Without one, it has the name `b`, after a row with the name `a`.
fn spoilt_row(flaw: Flaw, row: Row) -> Result<Row, Fail> {
    Ok(match flaw {
        Flaw::NoName => Row { length: 0, ..row },
        Flaw::LongName => Row { length: 25, ..row },
        Flaw::Slash => Row {
            name: [b'/'; 24],
            ..row
        },
        Flaw::SameNames => Row {
            name: [b'a'; 24],
            ..row
        },
        Flaw::OtherPort => {
            let port = Port { bytes: [9; 6] };
            Row {
                capability: Capability {
                    port,
                    ..row.capability
                },
                ..row
            }
        }
        Flaw::Check => {
            let check = Check::new(MODULUS).ok_or("31 bits fit")?;
            Row {
                capability: Capability {
                    check,
                    ..row.capability
                },
                ..row
            }
        }
        _ => row,
    })
}

/// A row with a name of one byte.
fn row(name: u8, capability: Capability) -> Row {
    Row {
        length: 1,
        name: [name; 24],
        capability,
        ..old_row()
    }
}

/// Two files of one byte, and a directory.
static STORED: [Act; 3] = [
    Act::File(b"x", 11, Ok(1)),
    Act::File(b"y", 13, Ok(2)),
    Act::Directory(17, Ok(4)),
];

/// A store with two files of one byte and a directory of two rows.
fn prepare() -> Result<Done<Powers>, Fail> {
    let mut taken = perform(gate()?, &STORED)?;
    taken.room.rows[0] = row(b'a', taken.given.at(1));
    taken.room.rows[1] = row(b'b', taken.given.at(2));
    taken.room.directories[0].count = 2;
    Ok(taken)
}

static WHOLE: [Act; 1] = [Act::Size(1, Ok(1))];

#[test]
fn the_memory_without_a_flaw() -> Result<(), Fail> {
    go_on(prepare()?, &WHOLE)?;
    Ok(())
}

static REFUSED: [Act; 1] = [Act::Destroy(1, Err(StoreRefusal::UnsoundMemory))];

#[test]
fn each_flaw_is_refused_and_left_alone(rt: HostRuntime) -> Result<(), Fail> {
    for flaw in FLAWS {
        let mut taken = prepare()?;
        let room = &mut taken.room;
        room.files[0] = spoilt_file(flaw, room.files[0]);
        room.directories[0] = spoilt_directory(flaw, room.directories[0]);
        room.rows[1] = spoilt_row(flaw, room.rows[1])?;
        let before = taken.room;
        let after = go_on(taken, &REFUSED)?;
        assert!(rt; after.room.is_same(&before), "{flaw:?}");
    }
    Ok(())
}
