//! Names of rows: the lawful ones, and which two are the same.
ghost use Rattle.memory.specs.Names.{IsSameName, is_same_name, is_lawful_name, is_name_byte, checked_name};
ghost use Rattle.std.specs.Prelude.{◌≡◌, Decides, IsTrue, option_map};

const Y: bool = true;

const N: bool = false;

/// Which bytes may stand in a name.
///
/// Each request tests every name in memory, and one look is quicker than three comparisons.
const NAME_BYTES: [bool; 256] = [
    N, N, N, N, N, N, N, N, N, N, N, N, N, N, N, N, N, N, N, N, N, N, N, N, N, N, N, N, N, N, N, N,
    N, Y, Y, Y, Y, Y, Y, Y, Y, Y, Y, Y, Y, Y, Y, N, Y, Y, Y, Y, Y, Y, Y, Y, Y, Y, Y, Y, Y, Y, Y, Y,
    Y, Y, Y, Y, Y, Y, Y, Y, Y, Y, Y, Y, Y, Y, Y, Y, Y, Y, Y, Y, Y, Y, Y, Y, Y, Y, Y, Y, Y, Y, Y, Y,
    Y, Y, Y, Y, Y, Y, Y, Y, Y, Y, Y, Y, Y, Y, Y, Y, Y, Y, Y, Y, Y, Y, Y, Y, Y, Y, Y, Y, Y, Y, Y, N,
    N, N, N, N, N, N, N, N, N, N, N, N, N, N, N, N, N, N, N, N, N, N, N, N, N, N, N, N, N, N, N, N,
    N, N, N, N, N, N, N, N, N, N, N, N, N, N, N, N, N, N, N, N, N, N, N, N, N, N, N, N, N, N, N, N,
    N, N, N, N, N, N, N, N, N, N, N, N, N, N, N, N, N, N, N, N, N, N, N, N, N, N, N, N, N, N, N, N,
    N, N, N, N, N, N, N, N, N, N, N, N, N, N, N, N, N, N, N, N, N, N, N, N, N, N, N, N, N, N, N, N,
];

/// A byte from 33 to 126, and not the slash.
fn is_name_byte(byte: u8) -> bool
    ensures { result ≡ is_name_byte byte }
{
    NAME_BYTES[usize::from(byte)]
}

/// Whether the bytes are a lawful name.
pub fn is_lawful_name(bytes: &[u8]) -> bool
    ensures { result ≡ is_lawful_name bytes.now }
{
    (1..=24).contains(&bytes.len()) && bytes.iter().all(|byte| is_name_byte(*byte))
}

/// Whether two names are the same: the one comparison of names.
#[tactic(auto, unfolding(crate::specs::Names::is_same_name))]
pub fn are_same_names(a: &[u8], b: &[u8]) -> bool
    ensures value { result ≡ is_same_name a.now b.now }
    ensures decides { Decides result (IsSameName a.now b.now) }
{
    a == b
}

/// The bytes of a lawful name.
///
/// It has no `==`: `are_same_names` compares names.
#[derive(Clone, Copy, Debug)]
pub struct Name<'a> {
    bytes: &'a [u8],
    ghost lawful: { IsTrue (is_lawful_name bytes.now) },
}

impl<'a> Name<'a> {
    /// The name of these bytes, if they are a lawful one.
    pub fn new(bytes: &'a [u8]) -> Option<Name<'a>>
        ensures { option_map (λ n. n.bytes.now) result ≡ checked_name bytes.now }
    {
        if !is_lawful_name(bytes) {
            return None;
        }
        Some(Name { bytes })
    }

    /// The bytes of the name.
    pub fn bytes(self) -> &'a [u8]
        ensures { result.now ≡ self.entry.bytes.now }
    {
        self.bytes
    }
}
