//! Requests to a directory by the call that serves any request.
use crate::act::Act;
use crate::asked::Asked;
use crate::bench::gate;
use crate::lend;
use crate::performing::{Done, perform};
use crate::room::OPEN;
use holder::Capability;
use std::test::Fail;
use store::{Answer, Query, Request, StoreRefusal, Update};

/// Whether two answers to requests to a directory are the same.
fn is_told(came: Result<Answer, StoreRefusal>, wanted: Result<Answer, StoreRefusal>) -> bool {
    match (came, wanted) {
        (Ok(Answer::Done), Ok(Answer::Done)) => true,
        (Ok(Answer::Found(found)), Ok(Answer::Found(wanted))) => found == wanted,
        (Ok(Answer::Name { row }), Ok(Answer::Name { row: wanted })) => row == wanted,
        (Err(refusal), Err(wanted)) => refusal == wanted,
        _ => false,
    }
}

/// A request for the first row, which has the name `run`, or for a new row of that name.
fn request(asked: Asked, entry: Capability) -> Request<'static> {
    let name = b"run";
    match asked {
        Asked::Enter => Request::Update(Update::Enter {
            name,
            entry,
            masks: OPEN,
        }),
        Asked::Remove => Request::Update(Update::Remove { name }),
        Asked::Row => Request::Query(Query::Row { n: 0 }),
        Asked::Name => Request::Query(Query::Name {
            object: entry.object,
        }),
        Asked::LookUp => Request::Query(Query::LookUp { name }),
        Asked::Walk => Request::Query(Query::Walk { path: name }),
    }
}

/// A run, and two directories.
static SERVED: [Act; 3] = [
    Act::File(b"abc", 11, Ok(1)),
    Act::Directory(13, Ok(4)),
    Act::Directory(17, Ok(5)),
];

#[test]
fn each_request_to_a_directory_is_served(rt: HostRuntime) -> Result<(), Fail> {
    let Done {
        mut bench,
        mut room,
        given,
    } = perform(gate()?, &SERVED)?;
    let mut memory = lend!(room);
    let (run, second) = (given.at(1), given.at(3));
    let requests = [
        (Asked::Enter, Ok(Answer::Done)),
        (Asked::LookUp, Ok(Answer::Found(run))),
        (Asked::Walk, Ok(Answer::Found(run))),
        (Asked::Row, Ok(Answer::Name { row: 16 })),
        (Asked::Name, Ok(Answer::Name { row: 16 })),
        (Asked::Remove, Ok(Answer::Done)),
        (Asked::LookUp, Err(StoreRefusal::NoSuchRow(0))),
    ];
    for (asked, wanted) in requests {
        let came = bench.serve(&mut memory, second, request(asked, run));
        assert!(rt; is_told(came, wanted), "{asked:?}");
    }
    Ok(())
}
