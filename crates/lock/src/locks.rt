// A lock over any scanner: it bans values from what is offered, and all else is as below.
ghost use Rattle.std.specs.Prelude.{◌≡◌, ◌≤◌, not, ◌&&◌, [], ◌∷◌, ◌++◌, length, if◌then◌else◌, vec_len, vec_capacity, MatchResult, nat_le};
ghost use Rattle.scanner.specs.Meaning.{Agree, powered, enabling, setting};
ghost use Rattle.names.specs.Numbers.{attribute_numbered, word_numbered};
ghost use Rattle.lock.specs.Bans.{Bans, forbidden, locked, most_bans, word_ban, span_ban, room_for, either, PileBansTheUnion, PileInAnyOrder};
ghost use Rattle.lock.specs.LockedPoints.{locked_keeps};
ghost use Rattle.std.proofs.Common.{rules};

use crate::ban::{Ban, Banned, Forbidding};
use names::{Attribute, Named, PixelFormat, Source, Value, Word};
use scanner::{Point, Scanner};
use scanners::{FillFault, any};
use std::alloc::Global;

const MOST_BANS: usize = 16;

#[derive(Drop)]
pub struct Lock<S: Scanner> {
    below: S,
    // Its memory is taken when the lock is made.
    bans: Vec<Ban>,
    ghost few: { vec_len bans ≤ most_bans },
    ghost room: { most_bans ≤ vec_capacity bans },
}

impl<S: Scanner> Lock<S> {
    // A lock with no bans; where there is no memory for them, the scanner is handed back.
    pub fn new(heap: Global, below: S) -> Result<Lock<S>, S>
        ensures { MatchResult result (λ x. (x.below ≡ below) × (x.bans.items ≡ [])) (λ back. back ≡ below) }
    {
        // No `map_err` with `?`: its closure would take the scanner, which the lock needs.
        let Ok(bans) = Vec::with_capacity(heap, MOST_BANS) else {
            return Err(below);
        };
        Ok(Lock { below, bans })
    }

    // Takes the lock off.
    pub fn open(self) -> S
        ensures { result ≡ self.below }
    {
        let Lock { below, bans } = self;
        drop(bans);
        below
    }

    // Bans a word of an attribute, both by number, as a setup tool sends them here and in `ban_span`.
    // That the scanner below stays is said at each call: it ties a lock before and after, which no invariant can.
    pub fn ban_word(&mut self, attribute: u32, word: u32) -> Result<(), FillFault>
        ensures below { self.new.below ≡ self.old.below }
        ensures bans { Bans (word_ban (attribute_numbered attribute) (word_numbered word)) self.old.bans.items self.new.bans.items result }
    {
        let attribute = Attribute::from_number(attribute).ok_or(FillFault::BadNumber)?;
        let word = Word::from_number(word).ok_or(FillFault::BadNumber)?;
        self.ban(Ban {
            attribute,
            values: Banned::Word(word),
        })
    }

    // Bans the numbers of an attribute from low to high.
    pub fn ban_span(&mut self, attribute: u32, low: i32, high: i32) -> Result<(), FillFault>
        ensures below { self.new.below ≡ self.old.below }
        ensures bans { Bans (span_ban (attribute_numbered attribute) low high) self.old.bans.items self.new.bans.items result }
    {
        let attribute = Attribute::from_number(attribute).ok_or(FillFault::BadNumber)?;
        if low > high {
            return Err(FillFault::BadNumber);
        }
        self.ban(Ban {
            attribute,
            values: Banned::Span(low, high),
        })
    }

    fn ban(&mut self, ban: Ban) -> Result<(), FillFault>
        ensures below { self.new.below ≡ self.old.below }
        ensures answer { result ≡ room_for self.old.bans.items }
        ensures bans { self.new.bans.items ≡ (if nat_le most_bans (length self.old.bans.items) then self.old.bans.items else self.old.bans.items ++ ban ∷ []) }
    {
        if self.bans.len() >= MOST_BANS {
            return Err(FillFault::Full);
        }
        self.bans.push_reserved(ban);
        Ok(())
    }

    fn forbids(&self, attribute: Attribute, value: Value) -> bool
        ensures { result ≡ forbidden self.now.bans.items attribute value }
    {
        any(self.bans.as_slice(), &Forbidding { attribute, value })
    }
}

impl<S: Scanner> Scanner for Lock<S> {
    ghost catalogue = { λ x. locked (S.catalogue x.below) (forbidden x.bans.items) };

    ghost state = { λ x. S.state x.below };

    ghost home_source_offered = { Prim.search rules };

    ghost home_format_offered = { Prim.search rules };

    ghost keeps_to_points = { λ x. locked_keeps (S.catalogue x.below) (S.state x.below) (forbidden x.bans.items) (S.keeps_to_points x.below) };

    fn offers_source(&self, source: Source) -> bool {
        self.below.offers_source(source)
    }

    fn offers_format(&self, source: Source, format: PixelFormat) -> bool {
        self.below.offers_format(source, format)
    }

    fn offers_attribute(&self, point: Point) -> bool {
        self.below.offers_attribute(point)
    }

    fn offers_value(&self, point: Point, value: Value) -> bool {
        self.below.offers_value(point, value) && !self.forbids(point.attribute, value)
    }

    fn home_source(&self) -> Source {
        self.below.home_source()
    }

    fn home_format(&self, source: Source) -> PixelFormat {
        self.below.home_format(source)
    }

    fn enabled(&self, source: Source, format: PixelFormat) -> bool {
        self.below.enabled(source, format)
    }

    fn current(&self, point: Point) -> Option<Value> {
        self.below.current(point)
    }

    fn reset(&mut self)
        ensures same { locked (S.catalogue self.new.below) (forbidden self.new.bans.items) ≡ locked (S.catalogue self.old.below) (forbidden self.old.bans.items) }
        ensures after { Agree (S.state self.new.below) (powered (S.catalogue self.old.below)) }
        ensures bans { self.new.bans.items ≡ self.old.bans.items }
    {
        self.below.reset();
    }

    fn enable(&mut self, source: Source, format: PixelFormat) -> bool
        ensures same { locked (S.catalogue self.new.below) (forbidden self.new.bans.items) ≡ locked (S.catalogue self.old.below) (forbidden self.old.bans.items) }
        ensures answer { result ≡ (S.catalogue self.old.below).offers_format source format }
        ensures after { Agree (S.state self.new.below) (if result then enabling (S.state self.old.below) source format else S.state self.old.below) }
        ensures bans { self.new.bans.items ≡ self.old.bans.items }
    {
        self.below.enable(source, format)
    }

    fn set(&mut self, point: Point, value: Value) -> bool
        ensures same { locked (S.catalogue self.new.below) (forbidden self.new.bans.items) ≡ locked (S.catalogue self.old.below) (forbidden self.old.bans.items) }
        ensures answer { result ≡ (locked (S.catalogue self.old.below) (forbidden self.old.bans.items)).offers_value point value }
        ensures after { Agree (S.state self.new.below) (if result then setting (S.state self.old.below) point value else S.state self.old.below) }
        ensures bans { self.new.bans.items ≡ self.old.bans.items }
    {
        !self.forbids(point.attribute, value) && self.below.set(point, value)
    }
}

// Whether a pile of two locks offers a value: it is offered below, and neither lock bans it.
pub fn pile_offers<S: Scanner>(pile: &Lock<Lock<S>>, point: Point, value: Value) -> bool
    ensures answer { result ≡ ((S.catalogue pile.now.below.below).offers_value point value && not (either (forbidden pile.now.below.bans.items) (forbidden pile.now.bans.items) point.attribute value)) }
    ensures law { PileBansTheUnion }
{
    pile.offers_value(point, value)
}

// The same two locks in the other order: the pile offers just what it did, and its state is as it was.
pub fn swapped<S: Scanner>(pile: Lock<Lock<S>>) -> Lock<Lock<S>>
    ensures below { result.below.below ≡ pile.below.below }
    ensures bans { (result.bans.items ≡ pile.below.bans.items) × (result.below.bans.items ≡ pile.bans.items) }
    ensures same { locked (locked (S.catalogue result.below.below) (forbidden result.below.bans.items)) (forbidden result.bans.items) ≡ locked (locked (S.catalogue pile.below.below) (forbidden pile.below.bans.items)) (forbidden pile.bans.items) }
    ensures law { PileInAnyOrder }
{
    let Lock {
        below: inner,
        bans: outer_bans,
    } = pile;
    let Lock {
        below,
        bans: inner_bans,
    } = inner;
    Lock {
        below: Lock {
            below,
            bans: outer_bans,
        },
        bans: inner_bans,
    }
}
