// When names, and values, are equal.
ghost use Rattle.std.specs.Prelude.{◌≡◌};
ghost use Rattle.names.specs.declared.kinds.Source.{Source};
ghost use Rattle.names.specs.declared.kinds.PixelFormat.{PixelFormat};
ghost use Rattle.names.specs.declared.kinds.Attribute.{Attribute};
ghost use Rattle.names.specs.declared.kinds.Word.{Word};
ghost use Rattle.names.specs.declared.kinds.Value.{Value};
ghost use Rattle.names.specs.Same.{same_source, same_format, same_attribute, same_word, same_value};

use crate::kinds::{Attribute, PixelFormat, Source, Value, Word};

// Two members of a kind are equal where they stand at the same place of their list, and two values where both are
// the same word or the same number.
pub fn equality_stands()
    ensures sources { (a b : Source) → ⟦<Source as PartialEq>⟧.eq a b ≡ same_source a b }
    ensures formats { (a b : PixelFormat) → ⟦<PixelFormat as PartialEq>⟧.eq a b ≡ same_format a b }
    ensures attributes { (a b : Attribute) → ⟦<Attribute as PartialEq>⟧.eq a b ≡ same_attribute a b }
    ensures words { (a b : Word) → ⟦<Word as PartialEq>⟧.eq a b ≡ same_word a b }
    ensures values { (a b : Value) → ⟦<Value as PartialEq>⟧.eq a b ≡ same_value a b }
{}
