//! Lines of a script: the reading of each, and a ticket that asks for its answer.
#![tactic(auto)]

mod answer;
mod desk;
mod error;
mod line;
mod pocket;
mod step;
mod step_line;
mod store_line;
mod ticket;
mod verb;
mod word;
mod words;

pub use answer::Answer;
pub use desk::{Desk, LEAST};
pub use error::{LineRefusal, Misread};
pub use pocket::Pocket;
pub use step::{Step, Task};
pub use step_line::read_step;
pub use store_line::{StoreLine, read_store_line};
pub use ticket::{Kept, Ticket};
pub use verb::Verb;
pub use word::Word;
