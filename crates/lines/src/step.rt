//! Steps: the lines of a script behind the first.
use crate::pocket::Pocket;
use crate::word::Word;

/// A step with the values of its own words. Each case shows its whole line: C is the pocket of the
/// capability presented, T the pocket that the step fills.
#[derive(Clone, Copy)]
pub enum Step<'l> {
    /// `file C S TEXT T`
    File {
        secret: u64,
        text: Word<'l>,
    },
    /// `dir C S T`
    Directory {
        secret: u64,
    },
    /// `read C`
    Read,
    /// `size C`
    Size,
    /// `drop C K T`
    Drop {
        right: u64,
    },
    /// `give C T`
    Give,
    /// `enter C NAME E W I B`
    Enter {
        name: Word<'l>,
        entry: Pocket,
        works: u8,
        inspector: u8,
        buyer: u8,
    },
    /// `out C NAME`
    Remove {
        name: Word<'l>,
    },
    /// `look C NAME T`
    LookUp {
        name: Word<'l>,
    },
    /// `walk C PATH T`
    Walk {
        path: Word<'l>,
    },
    /// `row C N`
    Row {
        n: u64,
    },
    /// `name C E`
    Name {
        entry: Pocket,
    },
    /// `kill C`
    Destroy,
    /// `new C S T`
    Revoke {
        secret: u64,
    },
}

/// A step, the pocket of the capability that it presents, and the pocket that it fills, if any.
#[derive(Clone, Copy)]
pub struct Task<'l> {
    pub presented: Pocket,
    pub step: Step<'l>,
    pub target: Option<Pocket>,
}
