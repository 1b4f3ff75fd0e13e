// Values that an entry offers.
ghost use Rattle.std.specs.Prelude.{◌≡◌};
ghost use Rattle.scanners.specs.Values.{is_one_of};

use crate::range::Range;
use names::{Value, Word};

// One word, or the numbers of a range.
#[derive(Clone, Copy)]
pub enum Values {
    Word(Word),
    Range(Range),
}

impl Values {
    // Whether the value is one of these.
    pub fn has(&self, value: Value) -> bool
        ensures { result ≡ is_one_of self.now value }
    {
        match (self, value) {
            (Values::Word(word), Value::Word(given)) => *word == given,
            (Values::Range(range), Value::Number(number)) => range.has(number),
            _ => false,
        }
    }
}
