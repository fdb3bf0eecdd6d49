//! Rows and paths at their edges, and what each set of rights lets see.
use crate::parts::{capability, object};
use holder::{Mask, Object, Rights};
use memory::{Masks, Name, Row, zero_row};
use rows::{
    Split, close_gap, is_lawful_path, last_for, put_last, row_of, search, seen, split_first,
};

fn masks(works: u8, inspector: u8, buyer: u8) -> Masks {
    Masks {
        works: Mask { bits: works },
        inspector: Mask { bits: inspector },
        buyer: Mask { bits: buyer },
    }
}

/// A row of this name, with a capability for this object.
fn row(name: &[u8], number: u8) -> Row {
    match Name::new(name) {
        Some(name) => row_of(
            name,
            capability(number, 255, u32::from(number)),
            masks(1, 2, 4),
        ),
        None => zero_row(),
    }
}

/// Whether a row has these parts of the one made by `row`.
fn is_row(row: &Row, name: &[u8], number: u8) -> bool {
    row.name() == name
        && row.length == name.len() as u64
        && row.capability.object == object(number)
        && row.masks.buyer.bits == 4
}

fn is_zero(row: &Row) -> bool {
    row.length == 0
        && row.name == [0; 24]
        && row.capability.port.bytes == [0; 6]
        && row.capability.rights.bits == 0
        && row.masks.works.bits == 0
}

#[test]
fn names_found(rt: HostRuntime) {
    let rows = [
        row(b"valve", 1),
        row(b"motor", 2),
        row(b"motors", 3),
        row(b"motor", 4),
    ];
    for (rows, name, expected) in [
        (&rows[..], b"motor".as_slice(), Some(1)), // the first of two
        (&rows, b"motors", Some(2)),
        (&rows, b"rotor", None), // as long as others
        (&rows, b"moto", None), // a part of a name
        (&rows[..1], b"motor", None), // past the rows
        (&[], b"motor", None),
    ] {
        assert!(rt; search(rows, name) == expected, "{name:?}");
    }
}

#[test]
fn objects_found(rt: HostRuntime) {
    let rows = [row(b"a", 7), row(b"b", 5), row(b"c", 7), row(b"d", 6)];
    for (rows, object, expected) in [
        (&rows[..], object(7), Some(2)), // the later of two
        (&rows, object(6), Some(3)),
        (&rows[..2], object(7), Some(0)),
        (&rows, object(8), None),
        (&rows, Object::new(263).unwrap(), None), // alike in its low byte
    ] {
        assert!(rt; last_for(rows, object) == expected, "{object:?}");
    }
}

#[test]
fn rows_made(rt: HostRuntime) {
    let made = row(b"pump", 9);
    assert!(rt; is_row(&made, b"pump", 9));
    assert!(rt; (made.name[3], made.name[4], made.name[23]) == (b'p', 0, 0));
    let longest = row(b"abcdefghijklmnopqrstuvwx", 9);
    assert!(rt; is_row(&longest, b"abcdefghijklmnopqrstuvwx", 9));
}

/// The row with this letter as its name, and its number.
fn lettered(letter: u8) -> Row {
    row(&[letter], letter)
}

/// Whether rows are those of these letters, and rows of zeros where there is a dot.
fn are_lettered(rows: &[Row], letters: &[u8]) -> bool {
    rows.len() == letters.len()
        && rows.iter().zip(letters).all(|(row, letter)| match *letter {
            b'.' => is_zero(row),
            letter => is_row(row, &[letter], letter),
        })
}

#[test]
fn gaps_closed(rt: HostRuntime) {
    let mut rows = [
        lettered(b'a'),
        lettered(b'b'),
        lettered(b'c'),
        lettered(b'd'),
    ];
    close_gap(&mut rows, 1);
    assert!(rt; are_lettered(&rows, b"acd."));
    close_gap(&mut rows[..3], 2);
    assert!(rt; are_lettered(&rows, b"ac.."), "the last one of three");
    close_gap(&mut rows[..2], 2);
    assert!(rt; are_lettered(&rows, b"ac.."), "there is no such place");
}

#[test]
fn last_rows_written(rt: HostRuntime) {
    let mut rows = [lettered(b'a'), zero_row(), lettered(b'c')];
    put_last(&mut rows[..2], lettered(b'b'));
    assert!(rt; are_lettered(&rows, b"abc"));
    put_last(&mut rows[..0], lettered(b'd'));
    assert!(rt; are_lettered(&rows, b"abc"), "there are no rows");
}

#[test]
fn columns_seen(rt: HostRuntime) {
    let columns = masks(0x13, 0x26, 0x84);
    for (rights, columns, bits) in [
        (0u8, columns, 0u8),
        (1, columns, 0x13),
        (2, columns, 0x26),
        (3, columns, 0x37),
        (4, columns, 0x84),
        (5, columns, 0x97),
        (6, columns, 0xa6),
        (7, columns, 0xb7),
        (0xf8, columns, 0),
        (0xfa, columns, 0x26),
        (255, masks(0, 0, 0), 0),
    ] {
        assert!(rt;
            seen(Rights { bits: rights }, columns).bits == bits,
            "{rights}"
        );
    }
}

#[test]
fn paths_split(rt: HostRuntime) {
    for (path, first, rest) in [
        (
            b"a/b/c".as_slice(),
            b"a".as_slice(),
            Some(b"b/c".as_slice()),
        ),
        (b"/a", b"", Some(b"a")),
        (b"a/", b"a", Some(b"")),
        (b"//", b"", Some(b"/")),
        (b"pump", b"pump", None),
        (b"", b"", None),
    ] {
        assert!(rt; split_first(path) == Split { first, rest }, "{path:?}");
    }
}

#[test]
fn paths_judged(rt: HostRuntime) {
    for (path, expected) in [
        (b"a".as_slice(), true),
        (b"a/b", true),
        (b"", false), // one empty name
        (b"/a", false),
        (b"a/", false),
        (b"a//b", false),
        (b"a/b c", false), // a space
        (b"a/b/c/d/e/f/g/h/i/j/k/l/m/n/o/p", true), // 16 names
        (b"a/b/c/d/e/f/g/h/i/j/k/l/m/n/o/p/q", false), // 17 names
        (b"a/abcdefghijklmnopqrstuvwx/b", true), // 24 bytes
        (b"a/abcdefghijklmnopqrstuvwxy/b", false), // 25 bytes
    ] {
        assert!(rt; is_lawful_path(path) == expected, "{path:?}");
    }
}
