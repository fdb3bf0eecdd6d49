//! The first words of steps.
ghost use Rattle.std.specs.Prelude.{◌≡◌};
ghost use Rattle.lines.specs.Verbs.{fills, spelling, verb_of};

/// The first word of a step, which says what the step does.
#[derive(Clone, Copy, PartialEq, Eq, Debug)]
pub enum Verb {
    File,
    Directory,
    Read,
    Size,
    Drop,
    Give,
    Enter,
    Remove,
    LookUp,
    Walk,
    Row,
    Name,
    Destroy,
    Revoke,
}

const VERBS: [Verb; 14] = [
    Verb::File,
    Verb::Directory,
    Verb::Read,
    Verb::Size,
    Verb::Drop,
    Verb::Give,
    Verb::Enter,
    Verb::Remove,
    Verb::LookUp,
    Verb::Walk,
    Verb::Row,
    Verb::Name,
    Verb::Destroy,
    Verb::Revoke,
];

impl Verb {
    /// The word.
    fn spelling(self) -> &'static [u8]
        ensures { result.now ≡ spelling self }
    {
        match self {
            Verb::File => b"file",
            Verb::Directory => b"dir",
            Verb::Read => b"read",
            Verb::Size => b"size",
            Verb::Drop => b"drop",
            Verb::Give => b"give",
            Verb::Enter => b"enter",
            Verb::Remove => b"out",
            Verb::LookUp => b"look",
            Verb::Walk => b"walk",
            Verb::Row => b"row",
            Verb::Name => b"name",
            Verb::Destroy => b"kill",
            Verb::Revoke => b"new",
        }
    }

    /// Whether the step gives a capability, which fills a pocket.
    pub(crate) fn fills(self) -> bool
        ensures { result ≡ fills self }
    {
        matches!(
            self,
            Verb::File
                | Verb::Directory
                | Verb::Drop
                | Verb::Give
                | Verb::LookUp
                | Verb::Walk
                | Verb::Revoke
        )
    }
}

/// The verb that a word spells.
pub(crate) fn verb_of(word: &[u8]) -> Option<Verb>
    ensures { result ≡ verb_of word.now }
{
    VERBS.iter().copied().find(|verb| verb.spelling() == word)
}
