//! Each refusal of the store as a plain value.
use admission::Denial;
use refusal::{Layer, Refusal};
use store::StoreRefusal;

/// Each refusal with its number and its place.
static REFUSALS: [(StoreRefusal, u8, u8); 18] = [
    (StoreRefusal::WrongSizes, 1, 0),
    (StoreRefusal::UnsoundMemory, 2, 0),
    (StoreRefusal::UnfitSecret, 3, 0),
    (StoreRefusal::BadName, 6, 0),
    (StoreRefusal::BadPath, 7, 0),
    (StoreRefusal::Denied(Denial::WrongPort, 0), 10, 0),
    (StoreRefusal::Denied(Denial::NoSuchObject, 1), 11, 1),
    (StoreRefusal::Denied(Denial::WrongCheck, 1), 12, 1),
    (StoreRefusal::Denied(Denial::RightMissing, 2), 13, 2),
    (StoreRefusal::Denied(Denial::WrongKind, 16), 14, 16),
    (StoreRefusal::NoFreeRecord, 20, 0),
    (StoreRefusal::NoStart, 21, 0),
    (StoreRefusal::EntryNotAccepted, 22, 0),
    (StoreRefusal::NameTaken, 23, 0),
    (StoreRefusal::DirectoryFull, 24, 0),
    (StoreRefusal::NoSuchRow(16), 25, 16),
    (StoreRefusal::RowNotAccepted(2), 26, 2),
    (StoreRefusal::RowsLeft, 27, 0),
];

#[test]
fn refusals_have_their_numbers(rt: HostRuntime) {
    for (refusal, number, place) in REFUSALS {
        let wanted = Refusal {
            number,
            layer: Layer::Store,
            place,
        };
        assert_eq!(rt; Refusal::from(refusal), wanted, "{refusal:?}");
    }
}
