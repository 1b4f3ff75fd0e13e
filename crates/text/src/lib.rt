// JSON after RFC 8259, in UTF-8 after RFC 3629: a reader that moves along the text and copies none of it.
#![tactic(auto)]

pub mod bytes;
pub mod fault;
pub mod laws;
pub mod number;
pub mod reader;
pub mod scalar;
pub mod string;
pub mod token;
pub mod value;

pub use fault::{MAX_LENGTH, MAX_LEVELS, TextFault};
pub use laws::{
    grammar_decides, length_comes_first, matches_are_equal, one_value_stands, written_reads_back,
};
pub use number::integer;
pub use reader::Reader;
pub use string::{same, spells, spells_ignoring_case, unescaped};
pub use token::{Member, Placed, Token};
pub use value::{check, check_length};
