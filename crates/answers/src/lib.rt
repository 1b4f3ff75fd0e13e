// What the programs share: a text and its answer.
#![tactic(auto)]

mod opening;
mod repeating;
mod submitting;
mod writing;

pub use opening::open_and_answer;
pub use repeating::resubmit;
pub use submitting::answer;
