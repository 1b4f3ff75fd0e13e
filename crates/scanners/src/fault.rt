// Why a filling call or a ban call is refused.
ghost use Rattle.std.specs.Prelude.{◌≡◌};
ghost use Rattle.scanners.specs.Faults.{fault_number};

// A refusal has no text to point into.
const NO_PLACE: u32 = 0;

#[derive(Clone, Copy, PartialEq, Eq, Debug)]
pub enum FillFault {
    // A number that names nothing, a low end above the high one, a step below 1.
    BadNumber,
    // What the entry hangs on is not there.
    Missing,
    // The source, format, attribute or word is already there.
    AlreadyThere,
    // There is no room for another entry.
    Full,
}

impl FillFault {
    // The number by which a refusal is reported.
    pub fn number(self) -> u32
        ensures { result ≡ fault_number self }
    {
        match self {
            FillFault::BadNumber => 41,
            FillFault::Missing => 42,
            FillFault::AlreadyThere => 43,
            FillFault::Full => 44,
        }
    }

    // The place that a refusal is reported at.
    pub fn offset(self) -> u32
        ensures { result ≡ 0 }
    {
        NO_PLACE
    }
}
