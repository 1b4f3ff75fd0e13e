// The four kinds of the vocabulary, and where the names of each lie in the one table of letters.
#![tactic(auto, unfolding(crate::specs::Vocabulary::letters, crate::specs::Vocabulary::starts))]

ghost use Rattle.std.specs.Prelude.{slice_range};
ghost use Rattle.names.specs.declared.kinds.Source.{Source};
ghost use Rattle.names.specs.declared.kinds.PixelFormat.{PixelFormat};
ghost use Rattle.names.specs.declared.kinds.Attribute.{Attribute};
ghost use Rattle.names.specs.declared.kinds.Word.{Word};
ghost use Rattle.names.specs.Codes.{source_code, format_code, attribute_code, word_code};
ghost use Rattle.names.specs.Numbers.{source_numbered, format_numbered, attribute_numbered, word_numbered};
ghost use Rattle.names.specs.Vocabulary.{letters, starts, sources, source_name, source_spelled, formats, format_name, format_spelled, attributes, attribute_name, attribute_spelled, words, word_name, word_spelled};
ghost use Rattle.names.specs.Kinds.{source_laws, format_laws, attribute_laws, word_laws};

use crate::kinds::{Attribute, PixelFormat, Source, Word};
use crate::letters::{LETTERS, STARTS};
use crate::lists::{ATTRIBUTES, PIXEL_FORMATS, SOURCES, WORDS};
use crate::named::Named;

impl Named for Source {
    ghost letters = { letters };

    ghost starts = { slice_range starts 0 7 };

    ghost all = { sources };

    ghost first = { Source.Feeder };

    ghost code = { source_code };

    ghost name = { source_name };

    ghost spelled = { source_spelled };

    ghost numbered = { source_numbered };

    ghost laws = { source_laws };

    fn letters() -> &'static [u8] {
        &LETTERS
    }

    fn starts() -> &'static [u16] {
        &STARTS[0..7]
    }

    fn all() -> &'static [Source] {
        &SOURCES
    }

    fn code(self) -> usize {
        self as usize
    }
}

impl Named for PixelFormat {
    ghost letters = { letters };

    ghost starts = { slice_range starts 6 12 };

    ghost all = { formats };

    ghost first = { PixelFormat.Bw1 };

    ghost code = { format_code };

    ghost name = { format_name };

    ghost spelled = { format_spelled };

    ghost numbered = { format_numbered };

    ghost laws = { format_laws };

    fn letters() -> &'static [u8] {
        &LETTERS
    }

    fn starts() -> &'static [u16] {
        &STARTS[6..12]
    }

    fn all() -> &'static [PixelFormat] {
        &PIXEL_FORMATS
    }

    fn code(self) -> usize {
        self as usize
    }
}

impl Named for Attribute {
    ghost letters = { letters };

    ghost starts = { slice_range starts 11 49 };

    ghost all = { attributes };

    ghost first = { Attribute.Alarms };

    ghost code = { attribute_code };

    ghost name = { attribute_name };

    ghost spelled = { attribute_spelled };

    ghost numbered = { attribute_numbered };

    ghost laws = { attribute_laws };

    fn letters() -> &'static [u8] {
        &LETTERS
    }

    fn starts() -> &'static [u16] {
        &STARTS[11..49]
    }

    fn all() -> &'static [Attribute] {
        &ATTRIBUTES
    }

    fn code(self) -> usize {
        self as usize
    }
}

impl Named for Word {
    ghost letters = { letters };

    ghost starts = { slice_range starts 48 65 };

    ghost all = { words };

    ghost first = { Word.Off };

    ghost code = { word_code };

    ghost name = { word_name };

    ghost spelled = { word_spelled };

    ghost numbered = { word_numbered };

    ghost laws = { word_laws };

    fn letters() -> &'static [u8] {
        &LETTERS
    }

    fn starts() -> &'static [u16] {
        &STARTS[48..65]
    }

    fn all() -> &'static [Word] {
        &WORDS
    }

    fn code(self) -> usize {
        self as usize
    }
}
