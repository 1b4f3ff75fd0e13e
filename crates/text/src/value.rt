// Values, objects and arrays.
ghost use Rattle.std.specs.Prelude.{◌≡◌, ◌<◌, ◌≤◌, true, false, ◌⊎◌, ◌∷◌, length, Ok, MatchResult};
ghost use Rattle.text.specs.declared.fault.TextFault.TheVariants.{TooLong};
ghost use Rattle.text.specs.Bytes.{white, digit};
ghost use Rattle.text.specs.Machine.{member as a_member, members, entries, begin_object, begin_array, outcome};
ghost use Rattle.text.specs.Ahead.{ReadsComma, Opens, Inside, here, ReadsString, ReadsNumber, ReadsToken, ReadsTokenHere, ReadsValue, ReadsMembers, ReadsEntries, ReadsName, ReadsMember, ReadsEntry, Finishes};
ghost use Rattle.text.specs.Grammar.{Text};
ghost use Rattle.text.specs.Judged.{Judged};
ghost use Rattle.text.specs.Limits.{most_bytes, most_levels};

use crate::fault::{MAX_LENGTH, MAX_LEVELS, TextFault};
use crate::reader::Reader;
use crate::token::{Member, Placed, Token};

impl<'a> Reader<'a> {
    // A reader at the start of a text.
    pub fn new(text: &'a [u8]) -> Reader<'a>
        ensures start { result.at ≡ 0 }
        ensures text { result.text.now ≡ text.now }
    {
        Reader { text, at: 0 }
    }

    // Passes the bracket that stands here, if `levels` leaves a level to open.
    // The condition stays: the bracket was looked at already, and a contract of any other byte too would be no plainer.
    fn open(&mut self, levels: u8) -> Result<(), TextFault>
        requires { Inside self.old }
        ensures object { here self.old ≡ 123 → Opens levels begin_object (λ d k. members true d ∷ k) self.old self.new result }
        ensures array { here self.old ≡ 91 → Opens levels begin_array (λ d k. entries true d ∷ k) self.old self.new result }
    {
        if levels == 0 {
            return Err(TextFault::TooDeep(self.at));
        }
        self.at += 1;
        Ok(())
    }

    // A string; what lies between its quotes.
    fn string(&mut self) -> Result<&'a [u8], TextFault>
        ensures { ReadsString self.old self.new result }
    {
        self.expect(|b| b == b'"')?;
        let from = self.at;
        let quote = self.characters()?;
        Ok(&self.text[from..quote])
    }

    // A number whose minus or first digit stands here; all of it.
    // Without the conditions the contract would say what every other value does here, which is no plainer.
    fn number(&mut self) -> Result<&'a [u8], TextFault>
        requires inside { Inside self.old }
        requires is { (here self.old ≡ 45) ⊎ (digit (here self.old) ≡ true) }
        ensures { ReadsNumber self.old self.new result }
    {
        let from = self.at;
        self.accept(|b| b == b'-');
        self.magnitude()?;
        Ok(&self.text[from..self.at])
    }

    // How the value begins that stands here: a scalar is read whole, of an object or an array the bracket alone.
    // The condition stays: `token` passes the white space, since the offset that it tells is the value's.
    #[inline(always)]
    fn token_here(&mut self, levels: u8) -> Result<Token<'a>, TextFault>
        requires { Inside self.old → white (here self.old) ≡ false }
        ensures { ReadsTokenHere levels self.old self.new result }
    {
        match self.peek().map(char::from) {
            Some('{') => {
                self.open(levels)?;
                Ok(Token::Object)
            }
            Some('[') => {
                self.open(levels)?;
                Ok(Token::Array)
            }
            Some('"') => Ok(Token::String(self.string()?)),
            Some('-' | '0'..='9') => Ok(Token::Number(self.number()?)),
            Some('t') => {
                self.letters(b"true")?;
                Ok(Token::True)
            }
            Some('f') => {
                self.letters(b"false")?;
                Ok(Token::False)
            }
            Some('n') => {
                self.letters(b"null")?;
                Ok(Token::Null)
            }
            _ => Err(self.forbidden()),
        }
    }

    // The first token of the next value. `levels` tells how many more levels may be opened.
    #[inline(always)]
    pub fn token(&mut self, levels: u8) -> Result<Placed<Token<'a>>, TextFault>
        ensures { ReadsToken levels self.old self.new result }
    {
        self.blanks();
        let offset = self.at;
        let value = self.token_here(levels)?;
        Ok(Placed { value, offset })
    }

    // A whole value; the token that it begins with.
    #[cycle(array_object_value)]
    pub fn value(&mut self, levels: u8) -> Result<Placed<Token<'a>>, TextFault>
        ensures { ReadsValue levels self.old self.new result }
    {
        let token = self.token(levels)?;
        match token.value {
            Token::Object => self.object(levels - 1)?,
            Token::Array => self.array(levels - 1)?,
            _ => {}
        }
        Ok(token)
    }

    // The rest of an object, after its brace.
    // Apart from `array`: one loop for both would take a closure that borrows the reader, which is no plainer.
    #[cycle(array_object_value)]
    fn object(&mut self, levels: u8) -> Result<(), TextFault>
        ensures { ReadsMembers levels self.old self.new result }
    {
        let mut first = true;
        while let Member::Named(_) = self.member(first)? {
            self.value(levels)?;
            first = false;
        }
        Ok(())
    }

    // The rest of an array, after its bracket.
    #[cycle(array_object_value)]
    fn array(&mut self, levels: u8) -> Result<(), TextFault>
        ensures { ReadsEntries levels self.old self.new result }
    {
        let mut first = true;
        while self.entry(first)? {
            self.value(levels)?;
            first = false;
        }
        Ok(())
    }

    // In an object: the name of its next member, past the colon, or the object's end, past the brace.
    // The caller tells whether it is the first, since a reader has a text and a position and nothing else.
    #[inline(always)]
    pub fn member(&mut self, first: bool) -> Result<Member<'a>, TextFault>
        ensures { ReadsMember first self.old self.new result }
    {
        self.blanks();
        let here = self.at;
        if self.accept(|b| b == b'}') {
            return Ok(Member::End(here));
        }
        self.comma(first)?;
        Ok(Member::Named(self.name()?))
    }

    // The comma before a member or an entry that is not the first.
    #[inline(always)]
    fn comma(&mut self, first: bool) -> Result<(), TextFault>
        ensures { ReadsComma first self.old self.new result }
    {
        if first {
            return Ok(());
        }
        self.expect(|b| b == b',')
    }

    // A member's name and the colon after it.
    #[inline(always)]
    fn name(&mut self) -> Result<Placed<&'a [u8]>, TextFault>
        ensures { ReadsName (λ d k. a_member d ∷ k) self.old self.new result }
    {
        self.blanks();
        let offset = self.at;
        let value = self.string()?;
        self.blanks();
        self.expect(|b| b == b':')?;
        Ok(Placed { value, offset })
    }

    // In an array: whether an entry follows; the array's bracket is passed where none does. The caller tells of the first here too.
    // Where the text ends no entry follows, the first as little as another.
    #[inline(always)]
    pub fn entry(&mut self, first: bool) -> Result<bool, TextFault>
        ensures { ReadsEntry first self.old self.new result }
    {
        self.blanks();
        if self.accept(|b| b == b']') {
            return Ok(false);
        }
        let Some(_) = self.peek() else {
            return Err(self.forbidden());
        };
        self.comma(first)?;
        Ok(true)
    }

    // Sees that nothing but white space is left.
    pub fn finish(&mut self) -> Result<(), TextFault>
        ensures { Finishes self.old self.new result }
    {
        self.blanks();
        match self.peek() {
            Some(_) => Err(self.forbidden()),
            None => Ok(()),
        }
    }
}

// Refuses a text that is too long.
pub fn check_length(text: &[u8]) -> Result<(), TextFault>
    ensures { MatchResult result (λ _. length text.now ≤ most_bytes) (λ e. (most_bytes < length text.now) × (e ≡ TooLong)) }
{
    if text.len() > MAX_LENGTH {
        return Err(TextFault::TooLong);
    }
    Ok(())
}

// Sees that a text is JSON, not too long and not too deep.
pub fn check(text: &[u8]) -> Result<(), TextFault>
    ensures exact { result ≡ outcome text.now }
    ensures judged { Judged text.now result }
    ensures read { length text.now ≤ most_bytes → Text most_levels text.now → result ≡ Ok tt }
{
    check_length(text)?;
    let mut reader = Reader::new(text);
    reader.value(MAX_LEVELS)?;
    reader.finish()
}
