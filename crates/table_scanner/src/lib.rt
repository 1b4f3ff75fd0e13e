// The table scanner: a scanner that is filled by a setup tool, entry by entry.
#![tactic(auto)]

mod change;
mod entry;
pub mod fill;
pub mod table;

pub use fill::{Fill, Given};
pub use table::TableScanner;
