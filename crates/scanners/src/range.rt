// The numbers low, low + step, and so on up to high.
ghost use Rattle.std.specs.Prelude.{◌≡◌, ◌<◌, true, false, pos, ◌≤ℤ◌, Decides, MatchOption};
ghost use Rattle.scanners.specs.Ranges.{Reached, in_range, is_range};

#[derive(Clone, Copy)]
pub struct Range {
    low: i32,
    high: i32,
    step: u32,
    ghost ordered: { low ≤ℤ high },
    ghost forward: { 0 < step },
}

impl Range {
    // A range, or none where low is above high or the step is below 1.
    pub fn new(low: i32, high: i32, step: i32) -> Option<Range>
        ensures { MatchOption result (is_range low high step ≡ false) (λ x. (is_range low high step ≡ true) × (x.low ≡ low) × (x.high ≡ high) × (pos x.step ≡ step)) }
    {
        // Not `then`: a closure would not have the test, on which the range's ghost fields rest.
        if low <= high && step >= 1 {
            Some(Range {
                low,
                high,
                step: step as u32,
            })
        } else {
            None
        }
    }

    // Whether a number is in the range.
    pub fn has(&self, number: i32) -> bool
        ensures test { result ≡ in_range self.now.low self.now.high self.now.step number }
        ensures law { Decides result (Reached self.now.low self.now.high self.now.step number) }
    {
        self.low <= number && number <= self.high && number.abs_diff(self.low) % self.step == 0
    }
}
