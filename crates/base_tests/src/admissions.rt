//! One file and one directory, asked for with capabilities that are wrong in one way each.
use crate::parts::{PORT, capability};
use admission::{Denial, Gate, Kinds, Need};
use family::Powers;
use holder::{Capability, Port};
use memory::{DirectoryRecord, FileRecord, Memory};
use refusal::Layer;
use secret::Secret;
use std::test::Fail;

const FILES: Kinds = Kinds {
    store: false,
    files: true,
    directories: false,
};

/// Files, under right 0.
const TO_READ: Need = Need {
    kinds: FILES,
    rights: 1,
};

/// Files, under right 1.
const TO_SIZE: Need = Need {
    kinds: FILES,
    rights: 2,
};

/// Files, under right 0 or 1.
const ONE_OF_TWO: Need = Need {
    kinds: FILES,
    rights: 3,
};

/// Files and directories, under right 4.
const TO_DESTROY: Need = Need {
    kinds: Kinds {
        store: false,
        files: true,
        directories: true,
    },
    rights: 16,
};

/// The store alone, under right 0.
const TO_FILE: Need = Need {
    kinds: Kinds {
        store: true,
        files: false,
        directories: false,
    },
    rights: 1,
};

/// Files and directories, under right 7, which no request asks.
const UNDER_RIGHT_7: Need = Need {
    rights: 128,
    ..TO_DESTROY
};

/// The store alone, under right 2.
const UNDER_RIGHT_2: Need = Need {
    rights: 4,
    ..TO_FILE
};

/// Any object, under right 5.
const TO_REVOKE: Need = Need {
    kinds: Kinds {
        store: true,
        files: true,
        directories: true,
    },
    rights: 32,
};

/// Why the capability is denied, if it is.
///
/// The secret of the store is 2, that of its file 3, and that of its directory 5. Object 2 is free.
fn denied(need: Need, capability: Capability) -> Result<Option<Denial>, Fail> {
    let family = Powers::new(101)?;
    let gate = Gate {
        family,
        port: PORT,
        secret: Secret::new(2),
    };
    let file = FileRecord {
        live: true,
        secret: Secret::new(3),
        start: 0,
        length: 0,
    };
    let mut files = [
        file,
        FileRecord {
            live: false,
            ..file
        },
    ];
    let mut directories = [DirectoryRecord {
        live: true,
        secret: Secret::new(5),
        count: 0,
    }];
    let memory = Memory {
        files: &mut files,
        directories: &mut directories,
        rows: &mut [],
        area: &mut [],
    };
    Ok(gate.admit(&memory, need, capability).err())
}

#[test]
fn objects_and_checks(rt: HostRuntime) -> Result<(), Fail> {
    let elsewhere = Capability {
        port: Port { bytes: [0; 6] },
        ..capability(4, 255, 9)
    };
    for (need, presented, expected) in [
        (TO_FILE, capability(0, 255, 2), None),
        (UNDER_RIGHT_2, capability(0, 255, 2), None),
        (TO_READ, capability(1, 255, 3), None),
        (TO_READ, capability(2, 255, 3), Some(Denial::NoSuchObject)), // a free place
        (TO_DESTROY, capability(3, 255, 5), None),
        (UNDER_RIGHT_7, capability(3, 255, 5), None),
        (
            TO_DESTROY,
            capability(4, 255, 5),
            Some(Denial::NoSuchObject),
        ), // past the last
        (TO_READ, capability(1, 255, 104), Some(Denial::WrongCheck)), // the modulus and 3
        (TO_READ, elsewhere, Some(Denial::WrongPort)), // tested first
    ] {
        let denial = denied(need, presented)?;
        assert!(rt; denial == expected, "{need:?}, {presented:?}");
    }
    Ok(())
}

#[test]
fn kinds_before_rights(rt: HostRuntime) -> Result<(), Fail> {
    // right 0 dropped: modulo 101, 3 to the power 5 is 41, and 5 to the power 5 is 95
    for (need, presented, expected) in [
        (TO_DESTROY, capability(0, 255, 2), Some(Denial::WrongKind)),
        (TO_SIZE, capability(3, 255, 5), Some(Denial::WrongKind)),
        (TO_REVOKE, capability(0, 255, 2), None),
        (TO_READ, capability(1, 0, 3), Some(Denial::WrongCheck)), // rights that were not dropped
        (TO_READ, capability(1, 254, 41), Some(Denial::RightMissing)),
        (TO_SIZE, capability(1, 254, 41), None),
        (ONE_OF_TWO, capability(1, 254, 41), None),
        (TO_READ, capability(3, 254, 95), Some(Denial::WrongKind)), // the kind is tested first
    ] {
        let denial = denied(need, presented)?;
        assert!(rt; denial == expected, "{need:?}, {presented:?}");
    }
    Ok(())
}

#[test]
fn denials_as_plain_values(rt: HostRuntime) {
    let r = Denial::WrongKind.at(3);
    assert!(rt; (r.number, r.layer, r.place) == (14, Layer::Store, 3));
}
