// How much of the work table is used, and what the objects read so far weigh.
ghost use Rattle.std.specs.Prelude.{◌≡◌, ◌^◌, ◌<◌, ◌≤◌};

use crate::level::Level;

#[derive(Clone, Copy)]
pub struct Tally {
    pub used: usize,
    pub weight: usize,
    ghost covered: { used ≤ weight },
    ghost counted: { weight < 2 ^ 64 },
}

impl Tally {
    ghost use Rattle.table.specs.Works.{Reserved};

    // An object more; the task itself has no record and no weight.
    pub(crate) fn with_object(self, level: Level) -> Tally
        ensures { Reserved level self result }
    {
        if level == Level::Task {
            return self;
        }
        Tally {
            used: self.used.saturating_add(1),
            weight: self.weight.saturating_add(1),
        }
    }
}
