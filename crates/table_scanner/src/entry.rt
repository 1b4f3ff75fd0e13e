// What the table holds, and the tests by which an entry is found.
ghost use Rattle.std.specs.Prelude.{◌≡◌};
ghost use Rattle.table_scanner.specs.Entries.{of_source, is_pair, at_point, offering, off, restored};

use names::{PixelFormat, Source, Value};
use scanner::{Point, points_compare_by_parts};
use scanners::{Test, Values};

// A pair; the first one of a source has the home format.
#[derive(Clone, Copy)]
pub struct Pair {
    pub source: Source,
    pub format: PixelFormat,
    pub enabled: bool,
}

// A point with its values at power-on and now.
#[derive(Clone, Copy)]
pub struct Setting {
    pub point: Point,
    pub initial: Value,
    pub current: Value,
}

// Values that are offered at a point.
#[derive(Clone, Copy)]
pub struct Offer {
    pub point: Point,
    pub values: Values,
}

// What can be put back as it was at power-on.
pub trait Reset {
    ghost after: { Self → Self };

    fn reset(&mut self)
        ensures { self.new ≡ after self.old };
}

impl Reset for Pair {
    ghost after = { off };

    fn reset(&mut self) {
        self.enabled = false;
    }
}

impl Reset for Setting {
    ghost after = { restored };

    fn reset(&mut self) {
        self.current = self.initial;
    }
}

// The tests: structs, since the one search takes its test under a trait, and each with a name, since a key alone would leave
// unsaid what it is compared with.
#[derive(Clone, Copy)]
pub struct OfSource {
    pub source: Source,
}

impl Test<Pair> for OfSource {
    ghost holds = { λ t x. of_source t.source x };

    fn meets(&self, entry: &Pair) -> bool {
        entry.source == self.source
    }
}

#[derive(Clone, Copy)]
pub struct IsPair {
    pub source: Source,
    pub format: PixelFormat,
}

impl Test<Pair> for IsPair {
    ghost holds = { λ t x. is_pair t.source t.format x };

    fn meets(&self, entry: &Pair) -> bool {
        entry.source == self.source && entry.format == self.format
    }
}

#[derive(Clone, Copy)]
pub struct AtPoint {
    pub point: Point,
}

impl Test<Setting> for AtPoint {
    ghost holds = { λ t x. at_point t.point x };

    fn meets(&self, entry: &Setting) -> bool {
        points_compare_by_parts();
        entry.point == self.point
    }
}

#[derive(Clone, Copy)]
pub struct Offering {
    pub point: Point,
    pub value: Value,
}

impl Test<Offer> for Offering {
    ghost holds = { λ t x. offering t.point t.value x };

    fn meets(&self, entry: &Offer) -> bool {
        points_compare_by_parts();
        entry.point == self.point && entry.values.has(self.value)
    }
}
