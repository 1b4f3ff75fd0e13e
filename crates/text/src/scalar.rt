// Strings, numbers, literals and white space.
ghost use Rattle.std.specs.Prelude.{◌≡◌, ℕ, ◌<◌, false, List, ◌∷◌, OnOk, ◌≢◌};
ghost use Rattle.text.specs.Bytes.{white, digit, plain};
ghost use Rattle.text.specs.Machine.{Frame, Part, whole, fraction, exponent, first, digits, digit1, sign, after, chars, escape, hex, hexes, tail, tails, lead};
ghost use Rattle.text.specs.Ahead.{Stack, Reads, ReadsTo, ReadsLetters, Onward, Inside, here, Skips, led, Leads};

use crate::fault::TextFault;
use crate::reader::Reader;

// What may follow the first byte of a character beyond ASCII: a byte from `low` to `high`, then `more` bytes.
#[derive(Clone, Copy)]
pub struct Lead {
    low: u8,
    high: u8,
    more: u8,
}

fn lead_of(b: u8) -> Option<Lead>
    ensures { (k : List Frame) → lead b k ≡ led result k }
{
    let (low, high, more) = match b {
        0xc2..=0xdf => (0x80, 0xbf, 0),
        0xe0 => (0xa0, 0xbf, 1),
        0xed => (0x80, 0x9f, 1),
        0xe1..=0xef => (0x80, 0xbf, 1),
        0xf0 => (0x90, 0xbf, 2),
        0xf1..=0xf3 => (0x80, 0xbf, 2),
        0xf4 => (0x80, 0x8f, 2),
        _ => return None,
    };
    Some(Lead { low, high, more })
}

fn is_white(b: u8) -> bool
    ensures { result ≡ white b }
{
    matches!(b, b' ' | b'\t' | b'\n' | b'\r')
}

// A character of one byte that is no quote and no backslash.
fn is_plain(b: u8) -> bool
    ensures { result ≡ plain b }
{
    b >= 0x20 && b <= 0x7f && b != b'"' && b != b'\\'
}

impl<'a> Reader<'a> {
    pub(crate) fn blanks(&mut self)
        ensures runs { (f : Stack) → Skips f → Onward f f self.old self.new }
        ensures stops { Inside self.new → white (here self.new) ≡ false }
    {
        self.skip(is_white);
    }

    // Passes the digits that stand here.
    fn digits(&mut self)
        ensures runs { (p : Part) → Onward (λ k. digits p ∷ k) (λ k. digits p ∷ k) self.old self.new }
        ensures stops { Inside self.new → digit (here self.new) ≡ false }
    {
        self.skip(|b| b.is_ascii_digit());
    }

    fn some_digits(&mut self) -> Result<(), TextFault>
        ensures { (p : Part) → Reads (λ k. digit1 p ∷ k) (λ k. after p ∷ k) self.old self.new result }
    {
        self.expect(|b| b.is_ascii_digit())?;
        self.digits();
        Ok(())
    }

    fn whole_part(&mut self) -> Result<(), TextFault>
        ensures { Reads (λ k. first ∷ k) (λ k. after whole ∷ k) self.old self.new result }
    {
        if self.accept(|b| b == b'0') {
            return Ok(());
        }
        self.some_digits()
    }

    fn fraction(&mut self) -> Result<(), TextFault>
        ensures { Reads (λ k. after whole ∷ k) (λ k. after fraction ∷ k) self.old self.new result }
    {
        if self.accept(|b| b == b'.') {
            return self.some_digits();
        }
        Ok(())
    }

    fn sign(&mut self)
        ensures { Onward (λ k. sign ∷ k) (λ k. digit1 exponent ∷ k) self.old self.new }
    {
        self.accept(|b| matches!(b, b'+' | b'-'));
    }

    fn exponent(&mut self) -> Result<(), TextFault>
        ensures { Reads (λ k. after fraction ∷ k) (λ k. k) self.old self.new result }
    {
        if self.accept(|b| matches!(b, b'e' | b'E')) {
            self.sign();
            return self.some_digits();
        }
        Ok(())
    }

    // The rest of a number, after its minus.
    pub(crate) fn magnitude(&mut self) -> Result<(), TextFault>
        ensures { Reads (λ k. first ∷ k) (λ k. k) self.old self.new result }
    {
        self.whole_part()?;
        self.fraction()?;
        self.exponent()
    }

    fn hex_digit(&mut self) -> Result<(), TextFault>
        ensures { (n : ℕ) → Reads (λ k. hex n ∷ k) (λ k. hexes n k) self.old self.new result }
    {
        self.expect(|b| b.is_ascii_hexdigit())
    }

    fn hex_digits(&mut self) -> Result<(), TextFault>
        ensures { Reads (λ k. hex 3 ∷ k) (λ k. chars ∷ k) self.old self.new result }
    {
        for _ in 0..4u8 {
            self.hex_digit()?;
        }
        Ok(())
    }

    // What follows a backslash.
    fn escape(&mut self) -> Result<(), TextFault>
        ensures { Reads (λ k. escape ∷ k) (λ k. chars ∷ k) self.old self.new result }
    {
        if self.accept(|b| b == b'u') {
            return self.hex_digits();
        }
        self.expect(|b| matches!(b, b'"' | b'\\' | b'/' | b'b' | b'f' | b'n' | b'r' | b't'))
    }

    // A byte of a character after its first.
    fn continuation(&mut self, low: u8, high: u8) -> Result<(), TextFault>
        ensures { (n : ℕ) → Reads (λ k. tail low high n ∷ k) (λ k. tails n k) self.old self.new result }
    {
        self.expect(|b| (low..=high).contains(&b))
    }

    fn continuations(&mut self, more: u8) -> Result<(), TextFault>
        ensures { Reads (λ k. tails more k) (λ k. chars ∷ k) self.old self.new result }
    {
        for _ in 0..more {
            self.continuation(0x80, 0xbf)?;
        }
        Ok(())
    }

    // A character beyond ASCII.
    fn wide(&mut self) -> Result<(), TextFault>
        ensures reads { (f : Stack) → Leads f self.old → Reads f (λ k. chars ∷ k) self.old self.new result }
        ensures further { OnOk result (self.old.at < self.new.at) }
    {
        let lead = self.peek().and_then(lead_of).ok_or(self.forbidden())?;
        self.at += 1;
        self.continuation(lead.low, lead.high)?;
        self.continuations(lead.more)
    }

    // One character or escape of a string, and all characters of one byte that stand behind a character of one byte as they are.
    // The condition stays: a quote ends the string, which `characters` sees; a contract of it here too would be no plainer.
    fn character(&mut self) -> Result<(), TextFault>
        requires { Inside self.old → here self.old ≢ 34 }
        ensures reads { Reads (λ k. chars ∷ k) (λ k. chars ∷ k) self.old self.new result }
        ensures further { OnOk result (self.old.at < self.new.at) }
    {
        match self.peek() {
            Some(b'\\') => {
                self.at += 1;
                self.escape()
            }
            Some(0x20..=0x7f) => {
                self.at += 1;
                self.plain();
                Ok(())
            }
            _ => self.wide(),
        }
    }

    // Passes the characters that stand here as they are, of one byte each.
    fn plain(&mut self)
        ensures { Onward (λ k. chars ∷ k) (λ k. chars ∷ k) self.old self.new }
    {
        self.skip(is_plain);
    }

    // The characters of a string up to its closing quote, which is passed too; where that quote stands.
    pub(crate) fn characters(&mut self) -> Result<usize, TextFault>
        ensures { ReadsTo (λ k. chars ∷ k) (λ k. k) self.old self.new result }
    {
        while !self.accept(|b| b == b'"') {
            self.character()?;
        }
        Ok(self.at - 1)
    }

    // The letters of a literal.
    pub(crate) fn letters(&mut self, rest: &[u8]) -> Result<(), TextFault>
        ensures { ReadsLetters rest.now self.old self.new result }
    {
        for c in rest {
            self.expect(|b| b == *c)?;
        }
        Ok(())
    }
}
