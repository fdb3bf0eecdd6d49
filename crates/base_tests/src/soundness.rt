//! Memory at the edges of soundness, and starts at the edges of the area.
use crate::parts::{PORT, capability};
use family::Powers;
use holder::{Capability, Mask, Port};
use memory::{DirectoryRecord, FileRecord, Masks, Memory, Row, is_lawful_name, is_sound, place};
use secret::Secret;
use std::test::Fail;

fn file(live: bool, start: u64, length: u64) -> FileRecord {
    FileRecord {
        live,
        secret: Secret::new(2),
        start,
        length,
    }
}

/// A row with a name of one byte and this check.
fn row(name: u8, check: u32) -> Row {
    let mask = Mask { bits: 255 };
    let mut bytes = [0; 24];
    bytes[0] = name;
    Row {
        length: 1,
        name: bytes,
        capability: capability(1, 255, check),
        masks: Masks {
            works: mask,
            inspector: mask,
            buyer: mask,
        },
    }
}

/// Whether two files, one directory and its two first rows are sound over an area of ten bytes.
fn sound(
    files: [FileRecord; 2],
    directory: DirectoryRecord,
    first: Row,
    second: Row,
) -> Result<bool, Fail> {
    let powers = Powers::new(101)?;
    let mut files = files;
    let mut directories = [directory];
    let mut rows = [row(b'x', 1); 16];
    rows[0] = first;
    rows[1] = second;
    let mut area = [0; 10];
    let memory = Memory {
        files: &mut files,
        directories: &mut directories,
        rows: &mut rows,
        area: &mut area,
    };
    Ok(is_sound(&powers, PORT, &memory))
}

fn directory(live: bool, secret: u64, count: u64) -> DirectoryRecord {
    DirectoryRecord {
        live,
        secret: Secret::new(secret),
        count,
    }
}

#[test]
fn secrets_of_files(rt: HostRuntime) -> Result<(), Fail> {
    let none = directory(false, 0, 0);
    let (a, b) = (row(b'a', 1), row(b'b', 1));
    let other = file(false, 0, 0);
    let secret = Secret::new(101);
    let unfit = FileRecord {
        secret,
        ..file(true, 0, 5)
    };
    let free = FileRecord {
        secret,
        ..file(false, 0, 5)
    };
    assert!(rt;
        !sound([unfit, other], none, a, b)?,
        "secret at the modulus"
    );
    assert!(rt; sound([free, other], none, a, b)?, "of a free record");
    Ok(())
}

#[test]
fn parts_of_files(rt: HostRuntime) -> Result<(), Fail> {
    let none = directory(false, 0, 0);
    let (a, b) = (row(b'a', 1), row(b'b', 1));
    let front = file(true, 0, 5);
    let longer = file(true, 0, 6);
    for (first, second, expected, why) in [
        (front, file(true, 5, 5), true, "side by side"),
        (longer, file(true, 5, 5), false, "one byte shared"),
        (longer, file(false, 5, 5), true, "shared with a free one"),
        (longer, file(true, 3, 0), true, "no byte to share"),
        (longer, file(true, 6, 5), false, "past the end"),
        (file(true, 11, 0), front, false, "begins past the end"),
        (file(true, u64::MAX, 2), front, false, "past any number"),
    ] {
        assert!(rt; sound([first, second], none, a, b)? == expected, "{why}");
    }
    Ok(())
}

#[test]
fn rows_of_directories(rt: HostRuntime) -> Result<(), Fail> {
    let files = [file(false, 0, 0), file(false, 0, 0)];
    let (a, b) = (row(b'a', 1), row(b'b', 100));
    for (record, first, second, expected, why) in [
        (directory(true, 100, 2), a, b, true, "below the modulus"),
        (
            directory(true, 101, 2),
            a,
            b,
            false,
            "secret at the modulus",
        ),
        (directory(false, 101, 2), a, b, true, "of a free record"),
        (
            directory(false, 0, 17),
            a,
            b,
            false,
            "count, also of a free record",
        ),
        (directory(true, 1, 2), a, a, false, "one name twice"),
        (directory(true, 1, 1), a, a, true, "not counted"),
        (
            directory(true, 1, 2),
            a,
            row(b'b', 101),
            false,
            "check at the modulus",
        ),
        (directory(true, 1, 2), a, row(b'/', 1), false, "a slash"),
        (directory(true, 1, 2), a, row(32, 1), false, "a space"),
    ] {
        assert!(rt; sound(files, record, first, second)? == expected, "{why}");
    }
    Ok(())
}

#[test]
fn names_and_ports_of_rows(rt: HostRuntime) -> Result<(), Fail> {
    let files = [file(false, 0, 0), file(false, 0, 0)];
    let (a, b) = (row(b'a', 1), row(b'b', 100));
    let without_name = Row { length: 0, ..a };
    let of_25_bytes = Row {
        length: 25,
        name: [b'a'; 24],
        ..a
    };
    let capability = Capability {
        port: Port { bytes: [9; 6] },
        ..a.capability
    };
    for (first, why) in [
        (without_name, "no name"),
        (of_25_bytes, "more bytes than there are"),
        (Row { capability, ..a }, "another store's"),
    ] {
        assert!(rt; !sound(files, directory(true, 1, 1), first, b)?, "{why}");
    }
    Ok(())
}

#[test]
fn lawful_names(rt: HostRuntime) {
    assert!(rt; is_lawful_name(b"NK40"));
    assert!(rt; !is_lawful_name(b""));
    assert!(rt; is_lawful_name(&[b'!'; 24]));
    assert!(rt; !is_lawful_name(&[b'~'; 25]));
    assert!(rt; !is_lawful_name(&[127]));
}

#[test]
fn lowest_starts(rt: HostRuntime) {
    let files = [file(true, 0, 2), file(true, 5, 3), file(false, 2, 3)];
    for (area, length, expected) in [
        (10, 3, Some(2)), // the hole
        (10, 2, Some(2)),
        (12, 4, Some(8)), // behind the last
        (11, 4, None), // one byte too few
        (0, 0, Some(0)), // no bytes
    ] {
        assert!(rt;
            place(&files, area, length) == expected,
            "{length} of {area}"
        );
    }
    assert!(rt; place(&[file(true, 1, u64::MAX)], 10, 1) == Some(0));
    assert!(rt; place(&[file(true, 0, u64::MAX)], 10, 1).is_none());
}
