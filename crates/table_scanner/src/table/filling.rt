// The calls that fill a table scanner. Everything that has a name goes by its number, and the parts of a point and of a range
// come apart, as a setup tool sends them.
ghost use Rattle.std.specs.Prelude.{◌≡◌, IfOk, Some, None};
ghost use Rattle.scanners.specs.Faults.{told};
ghost use Rattle.table_scanner.specs.Changes.{change_of};
ghost use Rattle.table_scanner.specs.Device.{device, catalogue_of, start};
ghost use Rattle.table_scanner.specs.Filling.{Fills, missing, already, fault_of, carried_out, read, all_given, Lawful, FillingKeepsTheLaws};

use crate::change::Change;
use crate::entry::{Offer, Pair, Setting};
use crate::fill::{Fill, Given};
use crate::table::TableScanner;
use names::{PixelFormat, Source, Value};
use scanner::{Scanner, same_points_are_one};
use scanners::{FillFault, Values};
use std::alloc::{AllocError, Global};

// As many entries as a table has room for, beyond the start.
pub const MOST_ENTRIES: usize = 256;

impl TableScanner {
    // A table scanner that offers the flatbed with gray8, its homes. All memory is taken here.
    pub fn new(heap: Global) -> Result<TableScanner, AllocError>
        ensures { IfOk result (λ x. device x ≡ start) }
    {
        let mut pairs = Vec::with_capacity(heap, MOST_ENTRIES + 1)?;
        let settings = Vec::with_capacity(heap, MOST_ENTRIES)?;
        let offers = Vec::with_capacity(heap, MOST_ENTRIES)?;
        pairs.push_reserved(Pair {
            source: Source::FlatBed,
            format: PixelFormat::Gray8,
            enabled: false,
        });
        Ok(TableScanner {
            pairs,
            settings,
            offers,
            home: Source::FlatBed,
        })
    }

    // The entries beyond the start.
    fn entries(&self) -> usize
        ensures { result ≡ (device self.now).entries }
    {
        self.pairs.len() + self.settings.len() + self.offers.len() - 1
    }

    // What it hangs on is not there: a format and the home on their source, an attribute on its pair, an offer on its point.
    fn misses(&self, change: Change) -> bool
        ensures { result ≡ missing (catalogue_of self.now) (change_of change) }
    {
        match change {
            Change::Source(..) => false,
            Change::Format(source, _) | Change::Home(source) => !self.offers_source(source),
            Change::Attribute(point, _) => !self.offers_format(point.source, point.format),
            Change::Offer(point, _) => !self.offers_attribute(point),
        }
    }

    // It is already there. A word can be there already; ranges may repeat and overlap.
    fn has_already(&self, change: Change) -> bool
        ensures { result ≡ already (catalogue_of self.now) (change_of change) }
    {
        match change {
            Change::Source(source, _) => self.offers_source(source),
            Change::Format(source, format) => self.offers_format(source, format),
            Change::Attribute(point, _) => self.offers_attribute(point),
            Change::Offer(point, Values::Word(word)) => self.offers_value(point, Value::Word(word)),
            Change::Offer(_, Values::Range(_)) | Change::Home(_) => false,
        }
    }

    // Whether a change can be carried out; the reasons against it come in the order of their numbers.
    fn admits(&self, change: Change) -> Result<(), FillFault>
        ensures { result ≡ told (fault_of (device self.now) (Some (change_of change))) }
    {
        if self.misses(change) {
            Err(FillFault::Missing)
        } else if self.has_already(change) {
            Err(FillFault::AlreadyThere)
        } else if self.entries() + change.entries() > MOST_ENTRIES {
            Err(FillFault::Full)
        } else {
            Ok(())
        }
    }

    fn carry_out(&mut self, change: Change)
        requires { fault_of (device self.old) (Some (change_of change)) ≡ None }
        ensures { device self.new ≡ carried_out (device self.old) (change_of change) }
    {
        same_points_are_one();
        match change {
            Change::Source(source, format) | Change::Format(source, format) => {
                self.pairs.push_reserved(Pair {
                    source,
                    format,
                    enabled: false,
                });
            }
            Change::Attribute(point, value) => {
                self.settings.push_reserved(Setting {
                    point,
                    initial: value,
                    current: value,
                });
            }
            Change::Offer(point, values) => self.offers.push_reserved(Offer { point, values }),
            Change::Home(source) => self.home = source,
        }
    }

    // Adds a source with its home format.
    pub fn add_source(&mut self, source: u32, format: u32) -> Result<(), FillFault>
        ensures { Fills (read (Fill.Source source format)) (device self.old) (device self.new) result }
    {
        self.take(Fill::Source(source, format))
    }

    // Adds a format to a source.
    pub fn add_format(&mut self, source: u32, format: u32) -> Result<(), FillFault>
        ensures { Fills (read (Fill.Format source format)) (device self.old) (device self.new) result }
    {
        self.take(Fill::Format(source, format))
    }

    // Adds an attribute to a pair, with its power-on value, which is current from then on.
    pub fn add_attribute(
        &mut self,
        source: u32,
        format: u32,
        attribute: u32,
        value: Given,
    ) -> Result<(), FillFault>
        ensures { Fills (read (Fill.Attribute source format attribute value)) (device self.old) (device self.new) result }
    {
        self.take(Fill::Attribute(source, format, attribute, value))
    }

    // Offers the numbers low, low + step and so on up to high at a point.
    pub fn add_range(
        &mut self,
        source: u32,
        format: u32,
        attribute: u32,
        low: i32,
        high: i32,
        step: i32,
    ) -> Result<(), FillFault>
        ensures { Fills (read (Fill.Range source format attribute low high step)) (device self.old) (device self.new) result }
    {
        self.take(Fill::Range(source, format, attribute, low, high, step))
    }

    // Offers a word at a point.
    pub fn add_word(
        &mut self,
        source: u32,
        format: u32,
        attribute: u32,
        word: u32,
    ) -> Result<(), FillFault>
        ensures { Fills (read (Fill.Word source format attribute word)) (device self.old) (device self.new) result }
    {
        self.take(Fill::Word(source, format, attribute, word))
    }

    // Names the home source. That is no entry.
    pub fn name_home(&mut self, source: u32) -> Result<(), FillFault>
        ensures { Fills (read (Fill.Home source)) (device self.old) (device self.new) result }
    {
        self.take(Fill::Home(source))
    }

    // One filling call.
    pub fn take(&mut self, call: Fill) -> Result<(), FillFault>
        ensures { Fills (read call) (device self.old) (device self.new) result }
    {
        let change = Change::read(call).ok_or(FillFault::BadNumber)?;
        self.admits(change)?;
        self.carry_out(change);
        Ok(())
    }

    // A list of filling calls, in order; those that are refused change nothing.
    pub fn fill(&mut self, calls: &[Fill])
        ensures after { device self.new ≡ all_given (device self.old) calls.now }
        ensures lawful { Lawful (device self.new).catalogue }
        ensures law { FillingKeepsTheLaws }
    {
        for call in calls {
            let _ = self.take(*call);
        }
    }
}
