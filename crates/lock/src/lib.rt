// A lock over any scanner: it bans values from what is offered.
#![tactic(auto)]

mod ban;
pub mod locks;

pub use locks::{Lock, pile_offers, swapped};
