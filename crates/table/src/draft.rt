// What is known so far of the object that is being read.
ghost use Rattle.std.specs.Prelude.{◌≡◌};
ghost use Rattle.text.specs.Strings.{stands};
ghost use Rattle.table.specs.Drafts.{fresh, record_of};
ghost use Rattle.table.specs.Steps.{Notes, Takes, Allowed, Ends, Asks};

use crate::exception::Exception;
use crate::fault::{FormRule, TableFault};
use crate::keys::{KEY_COUNT, Key};
use crate::level::Level;
use crate::meaning::Meaning;
use crate::record::{Head, Record};
use text::{Placed, spells_ignoring_case};

// Objects for another vendor than this one are skipped.
const VENDOR: [u8; 36] = *b"211a1e90-11e1-11e5-9493-1697f925ec7b";

#[derive(Clone, Copy)]
pub struct Draft {
    pub level: Level,
    pub head: Head,
    // Which member names it had.
    pub seen: [bool; KEY_COUNT],
    // The member called like its level.
    pub word: Option<Placed<Meaning>>,
    // Whether it is for another vendor.
    pub skipped: bool,
    // How many entries its array has.
    pub entries: u32,
}

impl Draft {
    pub(crate) fn new(level: Level, index: u32, offset: usize) -> Draft
        ensures { result ≡ fresh level index offset }
    {
        let head = Head {
            index,
            offset,
            exception: None,
            unknown: false,
        };
        Draft {
            level,
            head,
            seen: [false; KEY_COUNT],
            word: None,
            skipped: false,
            entries: 0,
        }
    }

    // Notes that a known member came, which may come once.
    pub(crate) fn note(&mut self, key: Key, offset: usize) -> Result<(), TableFault>
        ensures { Notes key offset self.old self.new result }
    {
        let i = key.index();
        if self.seen[i] {
            return Err(TableFault::Form(FormRule::Repeated, offset));
        }
        self.seen[i] = true;
        Ok(())
    }

    // Takes the string of a known member, which stands at `offset`.
    #[tactic(auto, unfolding(crate::specs::Drafts::taken, crate::specs::Words::foreign, crate::specs::Words::vendor))]
    pub(crate) fn take(&mut self, key: Key, raw: &[u8], offset: usize) -> Result<(), TableFault>
        ensures { Takes (stands raw.now) key offset self.old self.new result }
    {
        match key {
            Key::Comment | Key::Name => {}
            Key::Vendor => self.skipped = !spells_ignoring_case(raw, &VENDOR),
            Key::Exception => {
                let exception = allowed_exception(self.level, raw, offset)?;
                self.head.exception = Some(exception);
            }
            _ => self.word = Some(Placed {
                value: Meaning::of_word(self.level, raw),
                offset,
            }),
        }
        Ok(())
    }

    // The record of the object, whose closing brace stands at `brace`.
    pub(crate) fn record(&self, brace: usize) -> Result<Record, TableFault>
        ensures { Ends brace (record_of self.now) result }
    {
        let missing = TableFault::Form(FormRule::NamesakeMissing, brace);
        match self.level {
            Level::Task => Ok(Record::Vacant),
            Level::Action => Ok(Record::Action(
                self.head,
                asked(self.word, Meaning::verb),
                self.entries,
            )),
            Level::Stream => Ok(Record::Stream(self.head)),
            Level::Source => Ok(Record::Source(self.head, asked(self.word, Meaning::source))),
            Level::PixelFormat => Ok(Record::PixelFormat(
                self.head,
                asked(self.word, Meaning::pixel_format),
            )),
            Level::Attribute => {
                let word = self.word.ok_or(missing)?;
                Ok(Record::Attribute(self.head, read_as(word, Meaning::attribute)))
            }
            Level::Value => {
                let word = self.word.ok_or(missing)?;
                Ok(Record::Value(self.head, read_as(word, Meaning::value)))
            }
        }
    }
}

fn allowed_exception(
    level: Level,
    raw: &[u8],
    offset: usize,
) -> Result<Placed<Exception>, TableFault>
    ensures { Allowed (stands raw.now) level offset result }
{
    Exception::spelled(raw)
        .filter(|exception| level.allows(*exception))
        .map(|value| Placed { value, offset })
        .ok_or(TableFault::Form(FormRule::WrongKind, offset))
}

// What `part` makes of a word, at the word's offset.
fn read_as<T, F: FnOnce(Meaning) -> T>(word: Placed<Meaning>, part: F) -> Placed<T>
    requires { F.IsAlwaysCallable part }
    ensures { F.post part word.value result.value × (result.offset ≡ word.offset) }
{
    Placed {
        value: part(word.value),
        offset: word.offset,
    }
}

// What `part` finds in the word, at the word's offset; none where there is no word, or nothing is found.
fn asked<T, F: FnOnce(Meaning) -> Option<T>>(
    word: Option<Placed<Meaning>>,
    part: F,
) -> Option<Placed<T>>
    requires { F.IsAlwaysCallable part }
    ensures { Asks (F.post part) word result }
{
    let word = word?;
    let value = part(word.value)?;
    Some(Placed {
        value,
        offset: word.offset,
    })
}
