// A kind of names: its members in order, and their names end to end in a table of letters.
ghost use Rattle.std.specs.Prelude.{◌≡◌, ℕ, List, Option};
ghost use Rattle.text.specs.Strings.{stands};
ghost use Rattle.names.specs.Named.{NamedLaws};

use crate::lookup::{at_number, name_at, position};

pub trait Named: Copy + 'static {
    ghost letters: { List ℕ };

    ghost starts: { List ℕ };

    ghost all: { List Self };

    ghost first: { Self };

    ghost code: { Self → ℕ };

    ghost name: { Self → List ℕ };

    ghost spelled: { List ℕ → Option Self };

    ghost numbered: { ℕ → Option Self };

    // The letters that its names lie in.
    fn letters() -> &'static [u8]
        ensures { result.now ≡ letters };

    // Where each name starts there, and where the last one ends.
    fn starts() -> &'static [u16]
        ensures { result.now ≡ starts };

    // The members, in the order of their names.
    fn all() -> &'static [Self]
        ensures { result.now ≡ all };

    // Its place in the list.
    fn code(self) -> usize
        ensures { result ≡ code self };

    // The member that a string names, given by the bytes between its quotes.
    fn spelled(raw: &[u8]) -> Option<Self>
        ensures { result ≡ spelled (stands raw.now) }
    {
        let place = position(Self::letters(), Self::starts(), raw)?;
        Some(Self::all()[place])
    }

    // Its name.
    fn name(self) -> &'static [u8]
        ensures { result.now ≡ name self }
    {
        name_at(Self::letters(), Self::starts(), self.code())
    }

    // The member with this number, counted from 1, or none.
    // One method for all kinds: `TryFrom` would take an impl for each, and there is one way to fail.
    fn from_number(number: u32) -> Option<Self>
        ensures { result ≡ numbered number }
    {
        at_number(Self::all(), number)
    }

    ghost laws: { NamedLaws letters starts all first code name spelled numbered };
}
