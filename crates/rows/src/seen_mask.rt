//! The columns of masks that rights let see, as one mask.
ghost use Rattle.rows.specs.Seen.{IsSeenMask, seen_column, seen_mask};
ghost use Rattle.std.specs.Prelude.{◌≡◌};

use family::has_right;
use holder::{Mask, Rights};
use memory::Masks;

/// The bits of a column where a right lets it be seen, or else none.
fn column(rights: Rights, right: u64, mask: Mask) -> u8
    ensures { result ≡ seen_column rights.bits right mask.bits }
{
    if has_right(rights.bits, right) {
        mask.bits
    } else {
        0
    }
}

/// The rights of all columns that these rights let see.
pub fn seen(rights: Rights, masks: Masks) -> Mask
    ensures value { result ≡ seen_mask rights.bits masks }
    ensures words { IsSeenMask rights.bits masks result.bits }
{
    let works = column(rights, 0, masks.works);
    let inspector = column(rights, 1, masks.inspector);
    let buyer = column(rights, 2, masks.buyer);
    Mask {
        bits: works | inspector | buyer,
    }
}
