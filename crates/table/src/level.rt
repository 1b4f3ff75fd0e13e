// The levels of a task: which members each knows, and what its parts are.
ghost use Rattle.std.specs.Prelude.{◌≡◌, suc, ◌<◌, ◌≤◌, IfSome};
ghost use Rattle.text.specs.Strings.{stands};
ghost use Rattle.table.specs.Words.{key_spelled};
ghost use Rattle.table.specs.Levels.{level_code, part, knows, known, limit, allows, absent_weight};

use crate::exception::Exception;
use crate::keys::Key;
use crate::limits::{
    MAX_ACTIONS, MAX_ATTRIBUTES, MAX_PIXEL_FORMATS, MAX_SOURCES, MAX_STREAMS, MAX_VALUES,
};

#[derive(Clone, Copy, PartialEq, Eq, Debug)]
pub enum Level {
    Task,
    Action,
    Stream,
    Source,
    PixelFormat,
    Attribute,
    Value,
}

impl Level {
    // How deep it lies; the task itself at 0.
    pub(crate) fn depth(self) -> usize
        ensures value { result ≡ level_code self }
        ensures bound { result < 7 }
    {
        self as usize
    }

    // The level of the entries of the array called `key`, if it is the array of this level.
    pub(crate) fn part(self, key: Key) -> Option<Level>
        ensures value { result ≡ part self key }
        ensures below { IfSome result (λ p. (level_code p ≡ suc (level_code self)) × (level_code p ≤ 6)) }
    {
        match (self, key) {
            (Level::Task, Key::Actions) => Some(Level::Action),
            (Level::Action, Key::Streams) => Some(Level::Stream),
            (Level::Stream, Key::Sources) => Some(Level::Source),
            (Level::Source, Key::PixelFormats) => Some(Level::PixelFormat),
            (Level::PixelFormat, Key::Attributes) => Some(Level::Attribute),
            (Level::Attribute, Key::Values) => Some(Level::Value),
            _ => None,
        }
    }

    // Whether its objects know a member that is no array.
    pub(crate) fn knows(self, key: Key) -> bool
        ensures { result ≡ knows self key }
    {
        match key {
            Key::Comment | Key::Exception | Key::Vendor => self != Level::Task,
            Key::Name => matches!(self, Level::Stream | Level::Source | Level::PixelFormat),
            Key::Action => self == Level::Action,
            Key::Source => self == Level::Source,
            Key::PixelFormat => self == Level::PixelFormat,
            Key::Attribute => self == Level::Attribute,
            Key::Value => self == Level::Value,
            _ => false,
        }
    }

    // The member that a name spells, if it is the name of an array or one that this level knows.
    pub(crate) fn known(self, name: &[u8]) -> Option<Key>
        ensures { result ≡ known self (key_spelled (stands name.now)) }
    {
        Key::called(name).filter(|key| key.is_array() || self.knows(*key))
    }

    // How many objects of this level an array may have.
    pub(crate) fn limit(self) -> u32
        ensures value { result ≡ limit self }
        ensures bound { result ≤ 37 }
    {
        match self {
            Level::Task => 1,
            Level::Action => MAX_ACTIONS,
            Level::Stream => MAX_STREAMS,
            Level::Source => MAX_SOURCES,
            Level::PixelFormat => MAX_PIXEL_FORMATS,
            Level::Attribute => MAX_ATTRIBUTES,
            Level::Value => MAX_VALUES,
        }
    }

    // Whether its objects may have this exception: an action has no next stream to go to.
    pub(crate) fn allows(self, exception: Exception) -> bool
        ensures { result ≡ allows self exception }
    {
        self != Level::Action || exception != Exception::NextStream
    }

    // What an object without parts weighs beyond itself: the default parts that stand in for them.
    pub(crate) fn weight_of_absent_parts(self) -> usize
        ensures { result ≡ absent_weight self }
    {
        match self {
            Level::Action => 3,
            Level::Stream => 2,
            Level::Source => 1,
            _ => 0,
        }
    }
}
