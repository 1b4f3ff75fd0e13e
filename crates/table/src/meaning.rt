// What the member called like its object says.
#![tactic(auto, using(crate::proofs::Choosing::chosen, crate::proofs::Choosing::not_chosen), unfolding(crate::specs::Words::word_meaning, crate::specs::Words::value_meaning))]

ghost use Rattle.std.specs.Prelude.{◌≡◌, ℕ, List};
ghost use Rattle.text.specs.Strings.{stands};
ghost use Rattle.text.specs.Ahead.{Holds, kind_of};
ghost use Rattle.table.specs.Words.{verb_spelled, wanted_or, word_meaning, value_meaning};
ghost use Rattle.table.specs.Drafts.{verb_said, source_said, format_said, attribute_in, value_in};

use crate::level::Level;
use crate::record::{Verb, Wanted};
use names::{Attribute, Named, PixelFormat, Source, Value, Word};
use text::{Token, integer, spells};

#[derive(Clone, Copy)]
pub enum Meaning {
    Verb(Verb),
    Source(Wanted<Source>),
    PixelFormat(Wanted<PixelFormat>),
    // None where it names no attribute.
    Attribute(Option<Attribute>),
    // None where it is no value word and no number.
    Value(Option<Value>),
}

fn verb(raw: &[u8]) -> Verb
    ensures { result ≡ verb_spelled (stands raw.now) }
{
    if spells(raw, b"configure") {
        Verb::Configure
    } else {
        Verb::Other
    }
}

// What a word wants of a kind of names.
fn wanted<N: Named>(raw: &[u8]) -> Wanted<N>
    ensures { result ≡ wanted_or (stands raw.now) (N.spelled (stands raw.now)) }
{
    if spells(raw, b"any") {
        Wanted::Any
    } else {
        N::spelled(raw).map_or(Wanted::Unknown, Wanted::Named)
    }
}

impl Meaning {
    // What a string says as the word of an object of this level.
    pub(crate) fn of_word(level: Level, raw: &[u8]) -> Meaning
        ensures { result ≡ word_meaning level (stands raw.now) }
    {
        match level {
            Level::Action => Meaning::Verb(verb(raw)),
            Level::Source => Meaning::Source(wanted(raw)),
            Level::PixelFormat => Meaning::PixelFormat(wanted(raw)),
            Level::Attribute => Meaning::Attribute(Attribute::spelled(raw)),
            _ => Meaning::Value(None),
        }
    }

    // What the value of a value object says: a value word or a number within 32 bits; anything else is offered nowhere.
    pub(crate) fn of_value(token: Token) -> Meaning
        ensures { (t : List ℕ) → Holds t token.entry → result ≡ value_meaning (kind_of token.entry) t }
    {
        match token {
            Token::String(raw) => Meaning::Value(Word::spelled(raw).map(Value::Word)),
            Token::Number(raw) => Meaning::Value(integer(raw).map(Value::Number)),
            _ => Meaning::Value(None),
        }
    }

    // What an action's word asks for; none of another object's word. The next four are the same for the other levels.
    // One function for each variant, since no function can take a variant as its parameter.
    pub(crate) fn verb(self) -> Option<Verb>
        ensures { result ≡ verb_said self }
    {
        match self {
            Meaning::Verb(verb) => Some(verb),
            _ => None,
        }
    }

    pub(crate) fn source(self) -> Option<Wanted<Source>>
        ensures { result ≡ source_said self }
    {
        match self {
            Meaning::Source(source) => Some(source),
            _ => None,
        }
    }

    pub(crate) fn pixel_format(self) -> Option<Wanted<PixelFormat>>
        ensures { result ≡ format_said self }
    {
        match self {
            Meaning::PixelFormat(format) => Some(format),
            _ => None,
        }
    }

    pub(crate) fn attribute(self) -> Option<Attribute>
        ensures { result ≡ attribute_in self }
    {
        match self {
            Meaning::Attribute(attribute) => attribute,
            _ => None,
        }
    }

    pub(crate) fn value(self) -> Option<Value>
        ensures { result ≡ value_in self }
    {
        match self {
            Meaning::Value(value) => value,
            _ => None,
        }
    }
}
