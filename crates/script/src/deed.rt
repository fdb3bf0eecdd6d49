//! Deeds: steps whose pockets are read.
ghost use Rattle.script.specs.Deeds.{deed_by, deed_of, masks_of};
ghost use Rattle.std.specs.Prelude.{◌≡◌};
ghost use Rattle.lines.specs.Steps.{step_values};

use crate::pockets::Pockets;
use holder::Mask;
use lines::{LineRefusal, Step};
use memory::Masks;
use secret::Secret;
use store::{Query, Request, Update};

/// A step that names no pocket any more.
#[derive(Clone, Copy)]
pub(crate) enum Deed<'l> {
    /// Asks the store.
    Ask(Request<'l>),
    /// Drops this right.
    Drop(u64),
    /// Gives the capability on.
    Give,
}

/// Three masks of a row.
fn masks(works: u8, inspector: u8, buyer: u8) -> Masks
    ensures { result ≡ masks_of works inspector buyer }
{
    Masks {
        works: Mask { bits: works },
        inspector: Mask { bits: inspector },
        buyer: Mask { bits: buyer },
    }
}

impl Pockets {
    /// The deed of a step. Refuses an empty pocket among its own words.
    pub(crate) fn deed<'l>(&self, step: Step<'l>) -> Result<Deed<'l>, LineRefusal>
        ensures { deed_by result ≡ deed_of self.now.places (step_values step.entry) }
    {
        match step {
            Step::File { secret, text } => Ok(Deed::Ask(Request::Update(Update::CreateFile {
                bytes: text.bytes,
                secret: Secret::new(secret),
            }))),
            Step::Directory { secret } => Ok(Deed::Ask(Request::Update(Update::CreateDirectory {
                secret: Secret::new(secret),
            }))),
            Step::Read => Ok(Deed::Ask(Request::Query(Query::Read))),
            Step::Size => Ok(Deed::Ask(Request::Query(Query::Size))),
            Step::Drop { right } => Ok(Deed::Drop(right)),
            Step::Give => Ok(Deed::Give),
            Step::Enter {
                name,
                entry,
                works,
                inspector,
                buyer,
            } => Ok(Deed::Ask(Request::Update(Update::Enter {
                name: name.bytes,
                entry: self.held(entry)?,
                masks: masks(works, inspector, buyer),
            }))),
            Step::Remove { name } => {
                Ok(Deed::Ask(Request::Update(Update::Remove { name: name.bytes })))
            }
            Step::LookUp { name } => {
                Ok(Deed::Ask(Request::Query(Query::LookUp { name: name.bytes })))
            }
            Step::Walk { path } => {
                Ok(Deed::Ask(Request::Query(Query::Walk { path: path.bytes })))
            }
            Step::Row { n } => Ok(Deed::Ask(Request::Query(Query::Row { n }))),
            Step::Name { entry } => Ok(Deed::Ask(Request::Query(Query::Name {
                object: self.held(entry)?.object,
            }))),
            Step::Destroy => Ok(Deed::Ask(Request::Update(Update::Destroy))),
            Step::Revoke { secret } => Ok(Deed::Ask(Request::Update(Update::Revoke {
                secret: Secret::new(secret),
            }))),
        }
    }
}
