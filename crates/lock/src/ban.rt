// A ban: values of one attribute that are no longer offered.
ghost use Rattle.std.specs.Prelude.{◌≡◌};
ghost use Rattle.lock.specs.Bans.{is_banned, forbids};

use names::{Attribute, Value, Word};
use scanners::Test;

#[derive(Clone, Copy)]
pub enum Banned {
    Word(Word),
    // The numbers from a low end to a high one.
    Span(i32, i32),
}

#[derive(Clone, Copy)]
pub struct Ban {
    pub attribute: Attribute,
    pub values: Banned,
}

impl Banned {
    // Whether the value is one of these.
    pub fn has(&self, value: Value) -> bool
        ensures { result ≡ is_banned self.now value }
    {
        match (*self, value) {
            (Banned::Word(word), Value::Word(given)) => word == given,
            (Banned::Span(low, high), Value::Number(number)) => (low..=high).contains(&number),
            _ => false,
        }
    }
}

// The bans that forbid a value of an attribute: a struct, since the one search takes its test under a trait.
#[derive(Clone, Copy)]
pub struct Forbidding {
    pub attribute: Attribute,
    pub value: Value,
}

impl Test<Ban> for Forbidding {
    ghost holds = { λ t b. forbids b t.attribute t.value };

    fn meets(&self, entry: &Ban) -> bool {
        entry.attribute == self.attribute && entry.values.has(self.value)
    }
}
