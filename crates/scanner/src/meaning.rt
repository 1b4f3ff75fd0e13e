// A scanner, by what it means: what it offers never changes; which pairs are enabled, and the current values, do.
// A source and a format go apart: as one struct they would be put together at each call and taken apart again in each scanner.
// That the catalogue stays is said at each of the three calls that write: it ties two states, which no invariant can.
ghost use Rattle.std.specs.Prelude.{◌≡◌, true, is_some, if◌then◌else◌};
ghost use Rattle.names.specs.declared.kinds.Source.{Source};
ghost use Rattle.scanner.specs.Meaning.{Catalogue, State, KeepsToPoints, Agree, powered, enabling, setting};

use crate::point::Point;
use names::{PixelFormat, Source, Value};

pub trait Scanner {
    ghost catalogue: { Self → Catalogue };

    ghost state: { Self → State };

    // Questions change nothing.
    fn offers_source(&self, source: Source) -> bool
        ensures { result ≡ (catalogue self.now).offers_source source };

    fn offers_format(&self, source: Source, format: PixelFormat) -> bool
        ensures { result ≡ (catalogue self.now).offers_format source format };

    fn offers_attribute(&self, point: Point) -> bool
        ensures { result ≡ is_some ((catalogue self.now).power_on point) };

    fn offers_value(&self, point: Point, value: Value) -> bool
        ensures { result ≡ (catalogue self.now).offers_value point value };

    fn home_source(&self) -> Source
        ensures { result ≡ (catalogue self.now).home_source };

    fn home_format(&self, source: Source) -> PixelFormat
        ensures { result ≡ (catalogue self.now).home_format source };

    fn enabled(&self, source: Source, format: PixelFormat) -> bool
        ensures { result ≡ (state self.now).enabled source format };

    // The current value at a point, or none off a point.
    fn current(&self, point: Point) -> Option<Value>
        ensures { result ≡ (state self.now).current point };

    // No pair enabled, every point at its power-on value.
    fn reset(&mut self)
        ensures same { catalogue self.new ≡ catalogue self.old }
        ensures after { Agree (state self.new) (powered (catalogue self.old)) };

    // Adds a pair; says no, changing nothing, exactly where the pair is not offered.
    fn enable(&mut self, source: Source, format: PixelFormat) -> bool
        ensures same { catalogue self.new ≡ catalogue self.old }
        ensures answer { result ≡ (catalogue self.old).offers_format source format }
        ensures after { Agree (state self.new) (if result then enabling (state self.old) source format else state self.old) };

    // Puts a value at its point; says no, changing nothing, exactly where the value is not offered.
    fn set(&mut self, point: Point, value: Value) -> bool
        ensures same { catalogue self.new ≡ catalogue self.old }
        ensures answer { result ≡ (catalogue self.old).offers_value point value }
        ensures after { Agree (state self.new) (if result then setting (state self.old) point value else state self.old) };

    ghost home_source_offered: { (x : Self) → (catalogue x).offers_source (catalogue x).home_source ≡ true };

    ghost home_format_offered: { (x : Self) (s : Source) → (catalogue x).offers_source s ≡ true → (catalogue x).offers_format s ((catalogue x).home_format s) ≡ true };

    // Both speak of offered sources, offered pairs and points, and of nothing else.
    ghost keeps_to_points: { (x : Self) → KeepsToPoints (catalogue x) (state x) };
}
