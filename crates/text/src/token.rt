// What a reader yields: parts of the text, each with its offset.

// A value of any type and the offset at which it stands in the text.
#[derive(Clone, Copy, PartialEq, Eq, Debug)]
pub struct Placed<T> {
    pub value: T,
    pub offset: usize,
}

// How a value begins. A string's part is what lies between its quotes; a number's part is all of it.
#[derive(Clone, Copy)]
pub enum Token<'a> {
    Object,
    Array,
    String(&'a [u8]),
    Number(&'a [u8]),
    True,
    False,
    Null,
}

// What comes next in an object: a member's name, whose offset is that of its opening quote,
// or the object's end, with the offset of the closing brace.
// An enum of its own: the end is no failure, so a Result would say less, and an Option would lose its offset.
#[derive(Clone, Copy)]
pub enum Member<'a> {
    Named(Placed<&'a [u8]>),
    End(usize),
}
