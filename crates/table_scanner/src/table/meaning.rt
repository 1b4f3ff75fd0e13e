// What a table scanner means.
ghost use Rattle.std.specs.Prelude.{◌≡◌, map, if◌then◌else◌};
ghost use Rattle.scanner.specs.Meaning.{Agree, powered, enabling, setting};
ghost use Rattle.std.specs.Option.{option_copied};
ghost use Rattle.table_scanner.specs.Lookup.{found};
ghost use Rattle.table_scanner.specs.Device.{device, catalogue_of, state_of};
ghost use Rattle.table_scanner.specs.HomeOffered.{home_offered};
ghost use Rattle.table_scanner.specs.PointsKept.{keeps_to_points};
ghost use Rattle.std.proofs.Common.{rules};

use crate::entry::{AtPoint, IsPair, OfSource, Offering, Reset};
use crate::table::TableScanner;
use names::{PixelFormat, Source, Value};
use scanner::{Point, Scanner, same_points_are_one};
use scanners::{Test, any, first};

// Every entry as it is at power-on.
fn reset_all<T: Reset>(entries: &mut [T])
    ensures { entries.new ≡ map T.after entries.old }
{
    for entry in entries.iter_mut() {
        entry.reset();
    }
}

// The first entry that meets the test, or none.
fn find<'a, T, P: Test<T>>(entries: &'a [T], test: &P) -> Option<&'a T>
    ensures { option_copied result ≡ found (P.Test.holds test.now) (λ x. x) entries.now }
{
    let i = first(entries, test)?;
    Some(&entries[i])
}

impl Scanner for TableScanner {
    ghost catalogue = { catalogue_of };

    ghost state = { state_of };

    ghost home_source_offered = { Prim.search rules };

    ghost home_format_offered = { λ x s h. home_offered s x.pairs.items h };

    ghost keeps_to_points = { λ x. keeps_to_points x.pairs.items x.settings.items x.offers.items x.home };

    fn offers_source(&self, source: Source) -> bool {
        any(self.pairs.as_slice(), &OfSource { source })
    }

    fn offers_format(&self, source: Source, format: PixelFormat) -> bool {
        any(self.pairs.as_slice(), &IsPair { source, format })
    }

    fn offers_attribute(&self, point: Point) -> bool {
        self.offers_format(point.source, point.format)
            && any(self.settings.as_slice(), &AtPoint { point })
    }

    fn offers_value(&self, point: Point, value: Value) -> bool {
        self.offers_attribute(point) && any(self.offers.as_slice(), &Offering { point, value })
    }

    fn home_source(&self) -> Source {
        self.home
    }

    fn home_format(&self, source: Source) -> PixelFormat {
        let home = find(self.pairs.as_slice(), &OfSource { source });
        home.map_or(PixelFormat::Gray8, |pair| pair.format)
    }

    fn enabled(&self, source: Source, format: PixelFormat) -> bool {
        find(self.pairs.as_slice(), &IsPair { source, format }).is_some_and(|pair| pair.enabled)
    }

    fn current(&self, point: Point) -> Option<Value> {
        if !self.offers_format(point.source, point.format) {
            return None;
        }
        find(self.settings.as_slice(), &AtPoint { point }).map(|setting| setting.current)
    }

    fn reset(&mut self)
        ensures same { catalogue_of self.new ≡ catalogue_of self.old }
        ensures after { Agree (state_of self.new) (powered (catalogue_of self.old)) }
        ensures entries { (device self.new).entries ≡ (device self.old).entries }
    {
        reset_all(self.pairs.as_mut_slice());
        reset_all(self.settings.as_mut_slice());
    }

    fn enable(&mut self, source: Source, format: PixelFormat) -> bool
        ensures same { catalogue_of self.new ≡ catalogue_of self.old }
        ensures answer { result ≡ (catalogue_of self.old).offers_format source format }
        ensures after { Agree (state_of self.new) (if result then enabling (state_of self.old) source format else state_of self.old) }
        ensures entries { (device self.new).entries ≡ (device self.old).entries }
    {
        same_points_are_one();
        let Some(i) = first(self.pairs.as_slice(), &IsPair { source, format }) else {
            return false;
        };
        self.pairs[i].enabled = true;
        true
    }

    fn set(&mut self, point: Point, value: Value) -> bool
        ensures same { catalogue_of self.new ≡ catalogue_of self.old }
        ensures answer { result ≡ (catalogue_of self.old).offers_value point value }
        ensures after { Agree (state_of self.new) (if result then setting (state_of self.old) point value else state_of self.old) }
        ensures entries { (device self.new).entries ≡ (device self.old).entries }
    {
        same_points_are_one();
        if !self.offers_value(point, value) {
            return false;
        }
        let Some(i) = first(self.settings.as_slice(), &AtPoint { point }) else {
            return false;
        };
        self.settings[i].current = value;
        true
    }
}
