// Why a text is refused, and where.
ghost use Rattle.std.specs.Prelude.{◌≡◌};
ghost use Rattle.text.specs.Faults.{text_number, text_offset};

// The longest text that is read, in bytes.
pub const MAX_LENGTH: usize = 65536;

// How deep objects and arrays may nest; the outermost is level 1.
pub const MAX_LEVELS: u8 = 24;

#[derive(Clone, Copy, Debug)]
pub enum TextFault {
    // The byte at this offset, or the end of the text, may not stand there.
    Forbidden(usize),
    // The bracket at this offset opens a level beyond the deepest.
    TooDeep(usize),
    TooLong,
}

impl TextFault {
    pub fn number(&self) -> u8
        ensures { result ≡ text_number self.now }
    {
        match *self {
            TextFault::Forbidden(_) => 11,
            TextFault::TooDeep(_) => 12,
            TextFault::TooLong => 13,
        }
    }

    pub fn offset(&self) -> usize
        ensures { result ≡ text_offset self.now }
    {
        match *self {
            TextFault::Forbidden(offset) => offset,
            TextFault::TooDeep(offset) => offset,
            TextFault::TooLong => 0,
        }
    }
}
