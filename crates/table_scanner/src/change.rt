// What a filling call asks for, once its numbers are read.
ghost use Rattle.std.specs.Prelude.{◌≡◌, Some};
ghost use Rattle.std.specs.Option.{option_map};
ghost use Rattle.table_scanner.specs.Changes.{change_of};
ghost use Rattle.table_scanner.specs.Filling.{entries_of, read, pair_numbered, point_numbered, value_given};

use crate::fill::{Fill, Given};
use names::{Attribute, Named, PixelFormat, Source, Value, Word};
use scanner::Point;
use scanners::{Range, Values};

#[derive(Clone, Copy)]
pub enum Change {
    // A source with its home format.
    Source(Source, PixelFormat),
    // A format of a source.
    Format(Source, PixelFormat),
    // An attribute of a pair, with its power-on value.
    Attribute(Point, Value),
    // Values, at a point.
    Offer(Point, Values),
    // The home source.
    Home(Source),
}

impl Change {
    // The change that a call asks for; none where a number is unknown, low is above high or the step is below 1.
    // An Option and no TryFrom, as names by number are: that would be an impl with a law and an error type of its own.
    pub fn read(call: Fill) -> Option<Change>
        ensures { option_map change_of result ≡ read call }
    {
        let change = match call {
            Fill::Source(source, format) => {
                let (source, format) = pair_numbered(source, format)?;
                Change::Source(source, format)
            }
            Fill::Format(source, format) => {
                let (source, format) = pair_numbered(source, format)?;
                Change::Format(source, format)
            }
            Fill::Attribute(source, format, attribute, value) => Change::Attribute(
                point_numbered(source, format, attribute)?,
                value_given(value)?,
            ),
            Fill::Range(source, format, attribute, low, high, step) => Change::Offer(
                point_numbered(source, format, attribute)?,
                Values::Range(Range::new(low, high, step)?),
            ),
            Fill::Word(source, format, attribute, word) => Change::Offer(
                point_numbered(source, format, attribute)?,
                Values::Word(Word::from_number(word)?),
            ),
            Fill::Home(source) => Change::Home(Source::from_number(source)?),
        };
        Some(change)
    }

    // Each is one entry, but for naming the home source.
    pub fn entries(self) -> usize
        ensures { result ≡ entries_of (change_of self) }
    {
        match self {
            Change::Home(_) => 0,
            _ => 1,
        }
    }
}

fn pair_numbered(source: u32, format: u32) -> Option<(Source, PixelFormat)>
    ensures { result ≡ pair_numbered source format (λ s f. Some (s, f)) }
{
    Some((
        Source::from_number(source)?,
        PixelFormat::from_number(format)?,
    ))
}

// The numbers of a point come apart, as the setup tool sends them.
fn point_numbered(source: u32, format: u32, attribute: u32) -> Option<Point>
    ensures { result ≡ point_numbered source format attribute }
{
    let (source, format) = pair_numbered(source, format)?;
    let attribute = Attribute::from_number(attribute)?;
    Some(Point {
        source,
        format,
        attribute,
    })
}

fn value_given(value: Given) -> Option<Value>
    ensures { result ≡ value_given value }
{
    match value {
        Given::Number(number) => Some(Value::Number(number)),
        Given::Word(word) => Word::from_number(word).map(Value::Word),
    }
}
