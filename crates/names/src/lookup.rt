// Names that lie end to end in one table of letters: name i reaches from the i-th start to the next.
ghost use Rattle.std.specs.Prelude.{◌≡◌, ◌+◌, ◌<◌, length, IfSome};
ghost use Rattle.text.specs.Strings.{stands};
ghost use Rattle.names.specs.Names.{name_at, names_of, place};
ghost use Rattle.names.specs.Numbers.{numbered};
ghost use Rattle.names.specs.Vocabulary.{Apart, Vocabulary};

use text::{matches_are_equal, same, spells, unescaped};

// The letters of name i; no letters where the table has no such name.
pub fn name_at<'a>(letters: &'a [u8], starts: &[u16], i: usize) -> &'a [u8]
    ensures { result.now ≡ name_at letters.now starts.now i }
{
    if i >= starts.len() || i + 1 >= starts.len() {
        return &letters[0..0];
    }
    let from = starts[i] as usize;
    let to = (starts[i + 1] as usize).min(letters.len());
    if from < to {
        &letters[from..to]
    } else {
        &letters[0..0]
    }
}

// Which name a string spells, given by the bytes between its quotes: the first that it stands for.
pub fn position(letters: &[u8], starts: &[u16], raw: &[u8]) -> Option<usize>
    ensures value { result ≡ place (stands raw.now) (names_of letters.now starts.now) }
    ensures bound { IfSome result (λ i. i + 1 < length starts.now) }
{
    let count = starts.len().saturating_sub(1);
    // A string longer than all the letters is no name as it stands, so it is not looked through for backslashes.
    if raw.len() <= letters.len() && unescaped(raw) {
        return (0..count).find(|i| same(raw, name_at(letters, starts, *i)));
    }
    (0..count).find(|i| spells(raw, name_at(letters, starts, *i)))
}

// The entry of a list with this number, counted from 1, or none.
pub(crate) fn at_number<T: Copy>(list: &[T], number: u32) -> Option<T>
    ensures { result ≡ numbered list.now number }
{
    let place = (number as usize).checked_sub(1)?;
    list.get(place).copied()
}

// In each list the names are distinct, and a string names at most what it is spelled as.
pub fn vocabulary_stands()
    ensures apart { Apart }
    ensures exact { Vocabulary }
{
    matches_are_equal();
}
