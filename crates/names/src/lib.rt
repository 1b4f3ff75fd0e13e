// The vocabulary of the task language: 64 names, the types that they name, and how a string is looked up among them.
#![tactic(auto)]

pub mod equality;
pub mod kinds;
pub mod letters;
pub mod lists;
pub mod lookup;
pub mod named;
pub mod vocabulary;

pub use equality::equality_stands;
pub use kinds::{Attribute, PixelFormat, Source, Value, Word};
pub use lookup::{name_at, position};
pub use named::Named;
