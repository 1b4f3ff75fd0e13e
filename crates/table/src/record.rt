// The objects of a task, as the work table holds them: each before its parts, skipped ones left out.
use crate::exception::Exception;
use names::{Attribute, PixelFormat, Source, Value};
use text::Placed;

// What every object below the task has.
#[derive(Clone, Copy, PartialEq, Eq)]
pub struct Head {
    // Its place in its array, skipped entries counted.
    pub index: u32,
    // Where its brace stands in the text.
    pub offset: usize,
    pub exception: Option<Placed<Exception>>,
    // Whether it has a member that its level does not know.
    pub unknown: bool,
}

// What an action asks for.
#[derive(Clone, Copy, PartialEq, Eq)]
pub enum Verb {
    Configure,
    Other,
}

// What a source or pixel format object asks for by its word: three outcomes, each with a meaning of its own,
// which an Option in a Result would not name.
#[derive(Clone, Copy)]
pub enum Wanted<T> {
    Any,
    Named(T),
    // A word that is no name of the kind.
    Unknown,
}

#[derive(Clone, Copy)]
pub enum Record {
    // Nothing was written here: the caller lends a table that is full of these.
    Vacant,
    // The action's word, and how many entries its array of streams has, skipped ones counted.
    Action(Head, Option<Placed<Verb>>, u32),
    Stream(Head),
    Source(Head, Option<Placed<Wanted<Source>>>),
    PixelFormat(Head, Option<Placed<Wanted<PixelFormat>>>),
    Attribute(Head, Placed<Option<Attribute>>),
    // A value that is no value word and no number is offered nowhere.
    Value(Head, Placed<Option<Value>>),
}
