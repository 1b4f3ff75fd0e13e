// What is to be done where the scanner can't follow an object.
#![tactic(auto, using(crate::proofs::Choosing::chosen, crate::proofs::Choosing::not_chosen), unfolding(crate::specs::Words::exception_spelled))]

ghost use Rattle.std.specs.Prelude.{◌≡◌};
ghost use Rattle.text.specs.Strings.{stands};
ghost use Rattle.table.specs.Words.{exception_spelled};

use text::spells;

#[derive(Clone, Copy, PartialEq, Eq, Debug)]
pub enum Exception {
    Fail,
    Ignore,
    NextStream,
}

impl Exception {
    // The exception that a string names.
    // Three words: `Named` would take a table of letters, one of starts, a list and four methods for them.
    pub(crate) fn spelled(raw: &[u8]) -> Option<Exception>
        ensures { result ≡ exception_spelled (stands raw.now) }
    {
        if spells(raw, b"fail") {
            return Some(Exception::Fail);
        }
        if spells(raw, b"ignore") {
            return Some(Exception::Ignore);
        }
        if spells(raw, b"nextStream") {
            return Some(Exception::NextStream);
        }
        None
    }
}
