// The place record: where in the task the engine is. A guard goes into an object, and its end goes out again.
ghost use Rattle.std.specs.Prelude.{◌≡◌, None, slice_index_or};
ghost use Rattle.table.specs.Levels.{level_code};
ghost use Rattle.table.specs.Places.{outside, entered, leaving, steps_of};

use crate::level::Level;

// For each level there is the index, counted in the text, of the object of that level it is inside, if it is inside one.
#[derive(Clone, Copy)]
pub struct Place {
    steps: [Option<u32>; 7],
}

impl Place {
    // Outside of every object.
    pub fn outside() -> Place
        ensures { result ≡ outside }
    {
        Place { steps: [None; 7] }
    }

    // Goes into an object, until the end of what is returned, which leaves the record as it was.
    #[tactic(auto, using(crate::proofs::Leaving::left_again))]
    pub fn enter(&mut self, level: Level, index: u32) -> Inside<'_>
        ensures same_reference { result.place.ghost_name ≡ self.entry.ghost_name }
        ensures place { result.place.now ≡ entered self.old level index }
        ensures level { result.level ≡ level }
        ensures outer { result.outer ≡ slice_index_or self.old.steps (level_code level) None }
        ensures back { leaving result result.place.now ≡ self.old }
    {
        let depth = level.depth();
        let outer = self.steps[depth];
        self.steps[depth] = Some(index);
        Inside {
            place: self,
            level,
            outer,
        }
    }

    // The index at each level, from the actions on.
    pub fn steps(&self) -> &[Option<u32>]
        ensures { result.now ≡ steps_of self.now }
    {
        &self.steps[1..]
    }
}

// Held while the engine is inside an object; its end takes the object's step off again.
// The record in it is a field and not a method's loan: what a method lends can't be lent again by a method and be followed.
pub struct Inside<'a> {
    pub place: &'a mut Place,
    level: Level,
    // The step of the level before.
    outer: Option<u32>,
}

impl Drop for Inside<'_> {
    fn drop(self)
        ensures { self.exit.0.now ≡ leaving self.entry self.entry.place.now }
    {
        let depth = self.level.depth();
        self.place.steps[depth] = self.outer;
        let Inside {
            place: _,
            level: _,
            outer: _,
        } = self;
    }
}
