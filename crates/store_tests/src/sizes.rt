//! Sizes of memory and scratch, at both ends of every limit and one past each.
use crate::act::Act;
use crate::bench::{Bench, gate};
use crate::lend;
use crate::performing::{Done, perform};
use crate::room::{SmallRoom, old_directory, old_file, old_row};
use admission::Denial;
use family::Powers;
use holder::{Capability, Rights};
use memory::Memory;
use runs::open;
use secret::{SETS, Secret};
use std::alloc::Global;
use std::test::Fail;
use store::StoreRefusal;

/// Numbers of records, rows, bytes and numbers of scratch.
#[derive(Clone, Copy)]
struct Sizes {
    files: usize,
    directories: usize,
    rows: usize,
    area: usize,
    scratch: usize,
}

const SMALLEST: Sizes = Sizes {
    files: 1,
    directories: 1,
    rows: 16,
    area: 0,
    scratch: SETS,
};

const LARGEST: Sizes = Sizes {
    files: 256,
    directories: 64,
    rows: 1024,
    area: 1_048_576,
    scratch: SETS,
};

/// The refusal of an opening over this memory with this scratch, if there is one.
fn opened(memory: &mut Memory, scratch: &mut [u64]) -> Result<Option<StoreRefusal>, Fail> {
    Ok(open(gate()?, memory, scratch).err())
}

/// Whether memory and scratch are as they were made.
fn is_untouched(memory: &Memory, scratch: &[u64]) -> bool {
    memory.files.iter().all(|file| file.live)
        && memory.directories.iter().all(|directory| directory.live)
        && memory.rows.iter().all(|row| row.length == 3)
        && memory.area.iter().all(|byte| *byte == 9)
        && scratch.iter().all(|number| *number == 9)
}

/// The refusal of an opening over memory of these sizes, if there is one; and whether memory and
/// scratch are as they were made.
fn refused(heap: Global, sizes: Sizes) -> Result<(Option<StoreRefusal>, bool), Fail> {
    let mut files = vec![in heap; old_file(); sizes.files]?;
    let mut directories = vec![in heap; old_directory(); sizes.directories]?;
    let mut rows = vec![in heap; old_row(); sizes.rows]?;
    let mut area = vec![in heap; 9u8; sizes.area]?;
    let mut scratch = vec![in heap; 9u64; sizes.scratch]?;
    let mut memory = Memory {
        files: &mut files,
        directories: &mut directories,
        rows: &mut rows,
        area: &mut area,
    };
    let refusal = opened(&mut memory, &mut scratch)?;
    Ok((refusal, is_untouched(&memory, &scratch)))
}

#[test]
fn sizes_within_the_limits(rt: HostRuntime) -> Result<(), Fail> {
    for sizes in [SMALLEST, LARGEST] {
        assert_eq!(rt; refused(rt.alloc(), sizes)?.0, None);
    }
    Ok(())
}

/// One past a limit each, or with a number of rows that the directories do not have.
static WRONG: [Sizes; 9] = [
    Sizes {
        files: 0,
        ..SMALLEST
    },
    Sizes {
        files: 257,
        ..LARGEST
    },
    Sizes {
        directories: 0,
        rows: 0,
        ..SMALLEST
    },
    Sizes {
        directories: 65,
        rows: 1040,
        ..LARGEST
    },
    Sizes {
        rows: 15,
        ..SMALLEST
    },
    Sizes {
        rows: 17,
        ..SMALLEST
    },
    Sizes {
        area: 1_048_577,
        ..LARGEST
    },
    Sizes {
        scratch: 255,
        ..SMALLEST
    },
    Sizes {
        scratch: 257,
        ..SMALLEST
    },
];

#[test]
fn sizes_past_the_limits(rt: HostRuntime) -> Result<(), Fail> {
    for sizes in WRONG {
        let wanted = (Some(StoreRefusal::WrongSizes), true);
        assert!(rt; refused(rt.alloc(), sizes)? == wanted);
    }
    Ok(())
}

/// Lends so much of a room to a store.
macro_rules! lend_part {
    ($room:ident, $sizes:ident) => {
        Memory {
            files: $room.files.get_mut(..$sizes.files)?,
            directories: $room.directories.get_mut(..$sizes.directories)?,
            rows: $room.rows.get_mut(..$sizes.rows)?,
            area: $room.area.get_mut(..$sizes.area)?,
        }
    };
}

/// A store opened over a part of a room.
#[derive(Drop)]
struct Begun {
    bench: Bench<Powers>,
    room: SmallRoom,
    run: Capability,
}

/// A store with a file over so much of a room, if it has so much.
fn begin(sizes: Sizes) -> Option<Begun> {
    let mut room = SmallRoom::new();
    let mut memory = lend_part!(room, sizes);
    let mut bench = Bench::new(gate().ok()?, &mut memory).ok()?;
    let run = bench.file(&mut memory, b"abc", 11).ok()?;
    Some(Begun { bench, room, run })
}

/// The size of a file, as a store answers over so much of a room, if it has so much.
fn size_within(
    bench: &Bench<Powers>,
    mut room: SmallRoom,
    run: Capability,
    sizes: Sizes,
) -> Option<Result<u64, StoreRefusal>> {
    let memory = lend_part!(room, sizes);
    Some(bench.size(&memory, run))
}

const BEGUN: Sizes = Sizes {
    files: 2,
    directories: 1,
    rows: 16,
    area: 8,
    scratch: SETS,
};

/// One less and one more of each.
static OTHERS: [Sizes; 8] = [
    Sizes { files: 1, ..BEGUN },
    Sizes { files: 3, ..BEGUN },
    Sizes {
        directories: 0,
        ..BEGUN
    },
    Sizes {
        directories: 2,
        ..BEGUN
    },
    Sizes { rows: 15, ..BEGUN },
    Sizes { rows: 17, ..BEGUN },
    Sizes { area: 7, ..BEGUN },
    Sizes { area: 9, ..BEGUN },
];

#[test]
fn sizes_other_than_at_the_opening(rt: HostRuntime) -> Result<(), Fail> {
    let Begun { bench, room, run } = begin(BEGUN).ok_or("not begun")?;
    assert_eq!(rt; size_within(&bench, room, run, BEGUN), Some(Ok(3)));
    let wanted = Some(Err(StoreRefusal::WrongSizes));
    for sizes in OTHERS {
        assert!(rt; size_within(&bench, room, run, sizes) == wanted);
    }
    Ok(())
}

static FILED: [Act; 1] = [Act::File(b"abc", 11, Ok(1))];

/// Whether the store refuses a revoke so, and leaves this number in the whole scratch.
fn leaves(
    bench: &mut Bench<Powers>,
    memory: &mut Memory,
    (run, secret, wanted): (Capability, u64, StoreRefusal),
    scratch: &mut [u64],
    left: u64,
) -> bool {
    let secret = Secret::new(secret);
    let refusal = bench.store.revoke(memory, run, secret, scratch).err();
    refusal == Some(wanted) && scratch.iter().all(|number| *number == left)
}

/// Wiped where the store refuses the secret, and where it refuses the check.
#[test]
fn scratches_are_wiped(rt: HostRuntime) -> Result<(), Fail> {
    let Done {
        mut bench,
        mut room,
        given,
    } = perform(gate()?, &FILED)?;
    let mut memory = lend!(room);
    let run = given.at(1);
    let unknown = Capability {
        rights: Rights { bits: 1 },
        ..run
    };
    let secret = (run, 11, StoreRefusal::UnfitSecret);
    let mut scratch = [9; SETS];
    assert!(rt;
        leaves(&mut bench, &mut memory, secret, &mut scratch, 0),
        "the secret"
    );
    let check = (unknown, 13, StoreRefusal::Denied(Denial::WrongCheck, 0));
    scratch = [9; SETS];
    assert!(rt;
        leaves(&mut bench, &mut memory, check, &mut scratch, 0),
        "the check"
    );
    Ok(())
}

#[test]
fn a_scratch_of_another_size_is_not_wiped(rt: HostRuntime) -> Result<(), Fail> {
    let Done {
        mut bench,
        mut room,
        given,
    } = perform(gate()?, &FILED)?;
    let mut memory = lend!(room);
    let mut short = [9; 255];
    let size = (given.at(1), 13, StoreRefusal::WrongSizes);
    assert!(rt; leaves(&mut bench, &mut memory, size, &mut short, 9));
    Ok(())
}
