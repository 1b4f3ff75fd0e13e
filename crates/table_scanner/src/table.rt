// The table scanner's memory: lists and no maps, since no later call may allocate; each has room for all entries.
ghost use Rattle.std.specs.Prelude.{◌≡◌, ◌+◌, ◌≤◌, true, vec_len, vec_capacity};
ghost use Rattle.std.specs.List.{list_any};
ghost use Rattle.table_scanner.specs.Bounds.{most_entries};
ghost use Rattle.table_scanner.specs.Entries.{of_source, Paired, Anchored};

use crate::entry::{Offer, Pair, Setting};
use names::Source;

pub mod filling;
pub mod meaning;

#[derive(Drop)]
pub struct TableScanner {
    pairs: Vec<Pair>,
    settings: Vec<Setting>,
    offers: Vec<Offer>,
    home: Source,
    ghost homed: { list_any (of_source home) pairs.items ≡ true },
    ghost paired: { Paired pairs.items settings.items },
    ghost anchored: { Anchored settings.items offers.items },
    ghost started: { 1 ≤ vec_len pairs },
    ghost few: { vec_len pairs + vec_len settings + vec_len offers ≤ most_entries + 1 },
    ghost pairs_room: { most_entries + 1 ≤ vec_capacity pairs },
    ghost settings_room: { most_entries ≤ vec_capacity settings },
    ghost offers_room: { most_entries ≤ vec_capacity offers },
}
