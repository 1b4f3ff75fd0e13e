// The member names that some level of a task knows.
#![tactic(auto, unfolding(crate::specs::Words::key_letters, crate::specs::Words::key_starts))]

ghost use Rattle.std.specs.Prelude.{◌≡◌, ◌<◌};
ghost use Rattle.text.specs.Strings.{stands};
ghost use Rattle.names.specs.Numbers.{numbered};
ghost use Rattle.table.specs.declared.keys.Key.{Key};
ghost use Rattle.table.specs.Levels.{key_code, is_array_name};
ghost use Rattle.table.specs.Words.{keys, key_letters, key_starts, key_name, key_spelled, key_laws};

use names::Named;
use text::same;

#[derive(Clone, Copy, PartialEq, Eq, Debug)]
pub enum Key {
    Actions,
    Streams,
    Sources,
    PixelFormats,
    Attributes,
    Values,
    Comment,
    Exception,
    Vendor,
    Name,
    Action,
    Source,
    PixelFormat,
    Attribute,
    Value,
}

// How many member names there are.
pub const KEY_COUNT: usize = 15;

// Their letters, end to end, and where each starts: one table, as for the names of the vocabulary.
const KEY_LETTERS: [u8; 112] =
    *b"actionsstreamssourcespixelFormatsattributesvaluescommentexceptionvendornameactionsourcepixelFormatattributevalue";

const KEY_STARTS: [u16; 16] = [
    0, 7, 14, 21, 33, 43, 49, 56, 65, 71, 75, 81, 87, 98, 107, 112,
];

const KEYS: [Key; KEY_COUNT] = [
    Key::Actions,
    Key::Streams,
    Key::Sources,
    Key::PixelFormats,
    Key::Attributes,
    Key::Values,
    Key::Comment,
    Key::Exception,
    Key::Vendor,
    Key::Name,
    Key::Action,
    Key::Source,
    Key::PixelFormat,
    Key::Attribute,
    Key::Value,
];

impl Named for Key {
    ghost letters = { key_letters };

    ghost starts = { key_starts };

    ghost all = { keys };

    ghost first = { Key.Actions };

    ghost code = { key_code };

    ghost name = { key_name };

    ghost spelled = { key_spelled };

    ghost numbered = { numbered keys };

    ghost laws = { key_laws };

    fn letters() -> &'static [u8] {
        &KEY_LETTERS
    }

    fn starts() -> &'static [u16] {
        &KEY_STARTS
    }

    fn all() -> &'static [Key] {
        &KEYS
    }

    fn code(self) -> usize {
        self.index()
    }
}

impl Key {
    // Whether it names the array of some level.
    pub(crate) fn is_array(self) -> bool
        ensures { result ≡ is_array_name self }
    {
        matches!(
            self,
            Key::Actions
                | Key::Streams
                | Key::Sources
                | Key::PixelFormats
                | Key::Attributes
                | Key::Values
        )
    }

    // The member name that is tried first, by how many bytes there are and the third of them: the one that they can spell as they stand.
    // A wrong one would cost time and nothing else, so no contract tells which it is.
    fn candidate(name: &[u8]) -> Key {
        match (name.len(), name.get(2).copied()) {
            (4, _) => Key::Name,
            (5, _) => Key::Value,
            (6, Some(b'l')) => Key::Values,
            (6, Some(b'n')) => Key::Vendor,
            (6, Some(b't')) => Key::Action,
            (6, _) => Key::Source,
            (7, Some(b't')) => Key::Actions,
            (7, Some(b'r')) => Key::Streams,
            (7, Some(b'u')) => Key::Sources,
            (7, _) => Key::Comment,
            (9, Some(b't')) => Key::Attribute,
            (9, _) => Key::Exception,
            (10, _) => Key::Attributes,
            (11, _) => Key::PixelFormat,
            _ => Key::PixelFormats,
        }
    }

    // The member that a name spells. The one that it can be without escapes is tried before the rest.
    pub(crate) fn called(name: &[u8]) -> Option<Key>
        ensures { result ≡ key_spelled (stands name.now) }
    {
        let key = Key::candidate(name);
        if same(name, key.name()) {
            return Some(key);
        }
        Key::spelled(name)
    }

    // Its place among the member names.
    pub(crate) fn index(self) -> usize
        ensures value { result ≡ key_code self }
        ensures bound { result < 15 }
    {
        self as usize
    }
}
