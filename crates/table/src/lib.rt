// From a text to the objects of a task in a lent table, or the fault that comes first.
#![tactic(auto)]

mod draft;
mod exception;
mod fault;
mod keys;
pub mod laws;
mod level;
mod limits;
mod meaning;
mod place;
mod read;
mod record;
mod tally;

pub use exception::Exception;
pub use fault::{FormRule, TableFault};
pub use level::Level;
pub use place::{Inside, Place};
pub use read::read_task;
pub use record::{Head, Record, Verb, Wanted};
pub use text::Placed;
