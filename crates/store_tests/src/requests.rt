//! Requests for files, one after the other.
use crate::act::Act;
use crate::performing::perform_all;
use admission::Denial;
use std::test::Fail;
use store::StoreRefusal;

const NO_SUCH_OBJECT: StoreRefusal = StoreRefusal::Denied(Denial::NoSuchObject, 0);

const WRONG_CHECK: StoreRefusal = StoreRefusal::Denied(Denial::WrongCheck, 0);

/// A file, which another secret revokes.
static FILED: [Act; 6] = [
    Act::File(b"abc", 11, Ok(1)),
    Act::Size(1, Ok(3)),
    Act::Read(1, Ok(b"abc")),
    Act::Revoke(1, 13, Ok(1)),
    Act::Size(1, Err(WRONG_CHECK)),
    Act::Size(2, Ok(3)),
];

#[test]
fn a_run_is_filed_read_and_revoked() -> Result<(), Fail> {
    perform_all(&FILED)
}

static GONE: [Act; 10] = [
    Act::File(b"abc", 11, Ok(1)),
    Act::File(b"d", 13, Ok(2)),
    Act::Destroy(1, Ok(())),
    Act::Area(b"\0\0\0d"),
    Act::Size(1, Err(NO_SUCH_OBJECT)),
    Act::Destroy(1, Err(NO_SUCH_OBJECT)),
    Act::File(b"", 17, Ok(3)),
    Act::File(b"e", 19, Ok(1)),
    // Another file has the number.
    Act::Size(1, Err(WRONG_CHECK)),
    Act::Size(2, Ok(1)),
];

#[test]
fn objects_that_are_gone() -> Result<(), Fail> {
    perform_all(&GONE)
}

static GOING_ROUND: [Act; 11] = [
    Act::File(b"a", 11, Ok(1)),
    Act::File(b"b", 13, Ok(2)),
    Act::Destroy(1, Ok(())),
    // After the last given, though place 0 is free.
    Act::File(b"c", 17, Ok(3)),
    Act::Destroy(2, Ok(())),
    // Going round.
    Act::File(b"d", 19, Ok(1)),
    Act::File(b"e", 23, Ok(2)),
    // All are live.
    Act::File(b"f", 29, Err(StoreRefusal::NoFreeRecord)),
    // Behind the files.
    Act::Directory(29, Ok(4)),
    Act::Directory(31, Ok(5)),
    Act::Directory(37, Err(StoreRefusal::NoFreeRecord)),
];

#[test]
fn places_are_claimed_going_round() -> Result<(), Fail> {
    perform_all(&GOING_ROUND)
}

static HOLES: [Act; 10] = [
    Act::File(b"aaaaa", 11, Ok(1)),
    Act::File(b"bbbbb", 13, Ok(2)),
    Act::Destroy(1, Ok(())),
    // Five bytes in front and six behind.
    Act::File(b"ccccccc", 17, Err(StoreRefusal::NoStart)),
    Act::File(b"cccccc", 17, Ok(3)),
    Act::Start(2, 10),
    Act::File(b"ddddd", 19, Ok(1)),
    Act::Start(0, 0),
    Act::Read(3, Ok(b"cccccc")),
    Act::Read(4, Ok(b"ddddd")),
];

#[test]
fn the_lowest_hole_is_taken() -> Result<(), Fail> {
    perform_all(&HOLES)
}

static SECRETS: [Act; 4] = [
    Act::File(b"abc", 11, Ok(1)),
    // The same secret.
    Act::Revoke(1, 11, Err(StoreRefusal::UnfitSecret)),
    // One stays one.
    Act::Revoke(1, 1, Err(StoreRefusal::UnfitSecret)),
    // The modulus and 11.
    Act::SizeBy(1, 2_147_483_658, Err(WRONG_CHECK)),
];

#[test]
fn secrets_and_checks() -> Result<(), Fail> {
    perform_all(&SECRETS)
}
