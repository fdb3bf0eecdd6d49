//! The rule of each request.
ghost use Rattle.rows.specs.Paths.{is_lawful_path};
ghost use Rattle.std.specs.Prelude.{◌≡◌};
ghost use Rattle.store.specs.Requests.{query, update};
ghost use Rattle.store.specs.Rules.{name_form, path_form, plain, rule_of};
ghost use Rattle.store.specs.Values.{query_of, update_of};

use crate::error::StoreRefusal;
use crate::request::{Query, Update};
use admission::{Kinds, Need};
use memory::is_lawful_name;
use rows::is_lawful_path;
use secret::Secret;

/// The secret that a request brings.
#[derive(Clone, Copy)]
pub enum Bring {
    Nothing,
    /// For a new object: it must be fit.
    First(Secret),
    /// For an object that has a secret: it must be fit, and another one.
    Next(Secret),
}

/// The rule of a request.
#[derive(Clone, Copy)]
pub struct Rule {
    /// The kinds of objects that may be asked, and the rights of which one is wanted.
    pub need: Need,
    /// The form of the request's words: lawful, or the refusal.
    pub form: Result<(), StoreRefusal>,
    /// The place of a denial: a walk tells it at its first name.
    pub place: u8,
    pub secret: Bring,
}

const STORE: Kinds = Kinds {
    store: true,
    files: false,
    directories: false,
};

const FILES: Kinds = Kinds {
    store: false,
    files: true,
    directories: false,
};

const DIRECTORIES: Kinds = Kinds {
    store: false,
    files: false,
    directories: true,
};

const RECORDS: Kinds = Kinds {
    store: false,
    files: true,
    directories: true,
};

const ALL: Kinds = Kinds {
    store: true,
    files: true,
    directories: true,
};

const TO_READ: Need = Need {
    kinds: FILES,
    rights: 1 << 0,
};

const TO_SIZE: Need = Need {
    kinds: FILES,
    rights: 1 << 1,
};
/// To see rows, one of the three rights that show a column.
pub(crate) const TO_SEE: Need = Need {
    kinds: DIRECTORIES,
    rights: 0b111,
};

const TO_LIST: Need = Need {
    kinds: DIRECTORIES,
    rights: 1 << 3,
};

const TO_CREATE_FILE: Need = Need {
    kinds: STORE,
    rights: 1 << 0,
};

const TO_CREATE_DIRECTORY: Need = Need {
    kinds: STORE,
    rights: 1 << 1,
};

const TO_DESTROY: Need = Need {
    kinds: RECORDS,
    rights: 1 << 4,
};

const TO_REVOKE: Need = Need {
    kinds: ALL,
    rights: 1 << 5,
};

/// Refused unless the bytes are a lawful name.
fn name_form(name: &[u8]) -> Result<(), StoreRefusal>
    ensures { result ≡ name_form name.now }
{
    if !is_lawful_name(name) {
        return Err(StoreRefusal::BadName);
    }
    Ok(())
}

/// Refused unless the path has one to sixteen names, all lawful.
fn path_form(path: &[u8]) -> Result<(), StoreRefusal>
    ensures { result ≡ path_form path.now }
{
    if !is_lawful_path(path) {
        return Err(StoreRefusal::BadPath);
    }
    Ok(())
}

/// A rule for a request that brings nothing of a form, and no secret.
fn plain(need: Need) -> Rule
    ensures { result ≡ plain need }
{
    Rule {
        need,
        form: Ok(()),
        place: 0,
        secret: Bring::Nothing,
    }
}

impl Query<'_> {
    /// The rule of the query.
    pub(crate) fn rule(self) -> Rule
        ensures { result ≡ rule_of (query (query_of self.entry)) }
    {
        match self {
            Query::Read => plain(TO_READ),
            Query::Size => plain(TO_SIZE),
            Query::LookUp { name } => Rule {
                form: name_form(name),
                ..plain(TO_SEE)
            },
            Query::Walk { path } => Rule {
                form: path_form(path),
                place: 1,
                ..plain(TO_SEE)
            },
            Query::Row { .. } | Query::Name { .. } => plain(TO_SEE),
        }
    }
}

impl Update<'_> {
    /// The rule of the update.
    pub(crate) fn rule(self) -> Rule
        ensures { result ≡ rule_of (update (update_of self.entry)) }
    {
        match self {
            Update::CreateFile { secret, .. } => Rule {
                secret: Bring::First(secret),
                ..plain(TO_CREATE_FILE)
            },
            Update::CreateDirectory { secret } => Rule {
                secret: Bring::First(secret),
                ..plain(TO_CREATE_DIRECTORY)
            },
            Update::Enter { name, .. } | Update::Remove { name } => Rule {
                form: name_form(name),
                ..plain(TO_LIST)
            },
            Update::Destroy => plain(TO_DESTROY),
            Update::Revoke { secret } => Rule {
                secret: Bring::Next(secret),
                ..plain(TO_REVOKE)
            },
        }
    }
}
