// Single bytes of a text: looked at, passed and refused. That a test may be called is asked by each function that takes one.
ghost use Rattle.std.specs.Prelude.{◌≡◌, ◌≤◌, length, MatchOption};
ghost use Rattle.text.specs.declared.fault.TextFault.TheVariants.{Forbidden};
ghost use Rattle.text.specs.Ahead.{Inside, here, Accepts, Expects, Passes};

use crate::fault::TextFault;
use crate::reader::Reader;

impl<'a> Reader<'a> {
    // The byte that stands here, if one does.
    pub(crate) fn peek(&self) -> Option<u8>
        ensures { MatchOption result (length self.now.text.now ≤ self.now.at) (λ b. Inside self.now × (here self.now ≡ b)) }
    {
        self.text.get(self.at).copied()
    }

    // The byte or the end that stands here is forbidden.
    pub(crate) fn forbidden(&self) -> TextFault
        ensures { result ≡ Forbidden self.now.at }
    {
        TextFault::Forbidden(self.at)
    }

    // Passes the byte that stands here, if one does and meets the test; whether it was passed.
    pub(crate) fn accept<F: Fn(u8) -> bool>(&mut self, test: F) -> bool
        requires { F.IsAlwaysCallable test }
        ensures { Accepts (F.post test) self.old self.new result }
    {
        match self.peek() {
            Some(b) if test(b) => {
                self.at += 1;
                true
            }
            _ => false,
        }
    }

    // The same, where no other byte may stand and the text may not end.
    pub(crate) fn expect<F: Fn(u8) -> bool>(&mut self, test: F) -> Result<(), TextFault>
        requires { F.IsAlwaysCallable test }
        ensures { Expects (F.post test) self.old self.new result }
    {
        if self.accept(test) {
            Ok(())
        } else {
            Err(self.forbidden())
        }
    }

    // Passes all bytes up to the first that does not meet the test.
    pub(crate) fn skip<F: Fn(u8) -> bool>(&mut self, test: F)
        requires { F.IsAlwaysCallable test }
        ensures { Passes (F.post test) self.old self.new }
    {
        while self.accept(&test) {}
    }
}
