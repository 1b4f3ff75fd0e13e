// The flatbed: one source with two formats, and three attributes at both.
ghost use Rattle.std.specs.Prelude.{◌≡◌, true, if◌then◌else◌, Some, None};
ghost use Rattle.names.specs.declared.kinds.Attribute.{Attribute};
ghost use Rattle.names.specs.Same.{same_attribute};
ghost use Rattle.scanner.specs.Meaning.{Agree, powered};
ghost use Rattle.scanners.specs.Flatbed.{flatbed_catalogue, flatbed_state, settings_at, held_at, by_attribute, offered_resolution, offered_brightness, offered_compression};
ghost use Rattle.scanners.specs.FlatbedPoints.{keeps_to_points};
ghost use Rattle.scanners.specs.Lending.{LendsSettings};
ghost use Rattle.std.specs.Borrow.{sem};
ghost use Rattle.std.specs.Option.{option_copied, option_copied_mut};
ghost use Rattle.std.proofs.Common.{rules};

use names::{Attribute, PixelFormat, Source, Value, Word};
use scanner::{Point, Scanner, same_points_are_one};

const HOME_SOURCE: Source = Source::FlatBed;

const HOME_FORMAT: PixelFormat = PixelFormat::Gray8;

const LOWEST_RESOLUTION: i32 = 75;

const HIGHEST_RESOLUTION: i32 = 1200;

const RESOLUTION_STEP: i32 = 25;

const POWER_ON_RESOLUTION: i32 = 300;

const HIGHEST_BRIGHTNESS: i32 = 100;

const POWER_ON_BRIGHTNESS: i32 = 50;

// How one pair stands.
#[derive(Clone, Copy)]
struct Settings {
    enabled: bool,
    resolution: Value,
    brightness: Value,
    compression: Value,
}

const POWER_ON: Settings = Settings {
    enabled: false,
    resolution: Value::Number(POWER_ON_RESOLUTION),
    brightness: Value::Number(POWER_ON_BRIGHTNESS),
    compression: Value::Word(Word::None),
};

#[derive(Drop)]
pub struct Flatbed {
    gray: Settings,
    color: Settings,
}

fn offered_resolution(value: Value) -> bool
    ensures { result ≡ offered_resolution value }
{
    match value {
        Value::Number(n) => (LOWEST_RESOLUTION..=HIGHEST_RESOLUTION).contains(&n)
            && n % RESOLUTION_STEP == 0,
        Value::Word(_) => false,
    }
}

fn offered_brightness(value: Value) -> bool
    ensures { result ≡ offered_brightness value }
{
    match value {
        Value::Number(n) => (0..=HIGHEST_BRIGHTNESS).contains(&n),
        Value::Word(word) => word == Word::Automatic,
    }
}

fn offered_compression(value: Value) -> bool
    ensures { result ≡ offered_compression value }
{
    matches!(value, Value::Word(Word::None | Word::Jpeg))
}

impl Settings {
    fn at(&self, attribute: Attribute) -> Option<Value>
        ensures { result ≡ held_at (Some self.now) attribute }
    {
        match attribute {
            Attribute::Resolution => Some(self.resolution),
            Attribute::Brightness => Some(self.brightness),
            Attribute::Compression => Some(self.compression),
            _ => None,
        }
    }

    // Puts a value at an attribute; at any other than the three it does nothing.
    fn put(&mut self, attribute: Attribute, value: Value)
        ensures enabled { self.new.enabled ≡ self.old.enabled }
        ensures held { (a : Attribute) → held_at (Some self.new) a ≡ (if same_attribute attribute a then by_attribute a (Some value) (Some value) (Some value) None else held_at (Some self.old) a) }
    {
        same_points_are_one();
        match attribute {
            Attribute::Resolution => self.resolution = value,
            Attribute::Brightness => self.brightness = value,
            Attribute::Compression => self.compression = value,
            _ => {}
        }
    }
}

impl Flatbed {
    // A flatbed in its power-on state.
    pub fn new() -> Flatbed
        ensures { Agree (flatbed_state result) (powered flatbed_catalogue) }
    {
        Flatbed {
            gray: POWER_ON,
            color: POWER_ON,
        }
    }

    // The settings of a pair, or none off the pairs.
    fn settings(&self, source: Source, format: PixelFormat) -> Option<&Settings>
        ensures { option_copied result ≡ settings_at self.now source format }
    {
        match (source, format) {
            (Source::FlatBed, PixelFormat::Gray8) => Some(&self.gray),
            (Source::FlatBed, PixelFormat::Rgb24) => Some(&self.color),
            _ => None,
        }
    }

    // The same, to be written: no function is generic over the two kinds of reference.
    fn settings_mut(&mut self, source: Source, format: PixelFormat) -> Option<&mut Settings>
        ensures value { option_copied_mut result ≡ settings_at self.old source format }
        ensures* writes_back { sem 𝓛 (LendsSettings self.entry source format result) }
    {
        match (source, format) {
            (Source::FlatBed, PixelFormat::Gray8) => Some(&mut self.gray),
            (Source::FlatBed, PixelFormat::Rgb24) => Some(&mut self.color),
            _ => None,
        }
    }
}

impl Scanner for Flatbed {
    ghost catalogue = { λ _. flatbed_catalogue };

    ghost state = { flatbed_state };

    ghost home_source_offered = { Prim.search rules };

    ghost home_format_offered = { Prim.search rules };

    ghost keeps_to_points = { keeps_to_points };

    fn offers_source(&self, source: Source) -> bool {
        source == Source::FlatBed
    }

    fn offers_format(&self, source: Source, format: PixelFormat) -> bool {
        source == Source::FlatBed && matches!(format, PixelFormat::Gray8 | PixelFormat::Rgb24)
    }

    fn offers_attribute(&self, point: Point) -> bool {
        self.offers_format(point.source, point.format)
            && matches!(
                point.attribute,
                Attribute::Resolution | Attribute::Brightness | Attribute::Compression
            )
    }

    fn offers_value(&self, point: Point, value: Value) -> bool {
        self.offers_format(point.source, point.format)
            && match point.attribute {
                Attribute::Resolution => offered_resolution(value),
                Attribute::Brightness => offered_brightness(value),
                Attribute::Compression => offered_compression(value),
                _ => false,
            }
    }

    fn home_source(&self) -> Source {
        HOME_SOURCE
    }

    fn home_format(&self, _source: Source) -> PixelFormat {
        HOME_FORMAT
    }

    fn enabled(&self, source: Source, format: PixelFormat) -> bool {
        self.settings(source, format)
            .is_some_and(|settings| settings.enabled)
    }

    fn current(&self, point: Point) -> Option<Value> {
        self.settings(point.source, point.format)?
            .at(point.attribute)
    }

    fn reset(&mut self) {
        *self = Flatbed::new();
    }

    fn enable(&mut self, source: Source, format: PixelFormat) -> bool {
        let Some(settings) = self.settings_mut(source, format) else {
            return false;
        };
        settings.enabled = true;
        true
    }

    fn set(&mut self, point: Point, value: Value) -> bool {
        if !self.offers_value(point, value) {
            return false;
        }
        if let Some(settings) = self.settings_mut(point.source, point.format) {
            settings.put(point.attribute, value);
        }
        true
    }
}
