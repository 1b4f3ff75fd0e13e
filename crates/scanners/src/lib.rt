// The flatbed, and what the supplied scanners share: the one search, values by word and range, and refusals.
#![tactic(auto)]

pub mod fault;
pub mod flatbed;
pub mod range;
pub mod search;
pub mod values;

pub use fault::FillFault;
pub use flatbed::Flatbed;
pub use range::Range;
pub use search::{Test, any, first};
pub use values::Values;
