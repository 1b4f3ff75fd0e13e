// The one search: the first entry of a list that meets a test.
ghost use Rattle.std.specs.Prelude.{◌≡◌, Bool, is_some};
ghost use Rattle.std.specs.List.{list_any};
ghost use Rattle.scanners.specs.Search.{FirstOf};

// A test that an entry meets or fails. It is a trait, since a closure as the test would put a `requires` on the search.
pub trait Test<T> {
    ghost holds: { Self → T → Bool };

    fn meets(&self, entry: &T) -> bool
        ensures { result ≡ holds self.now entry.now };
}

// The index of the first entry that meets the test, or none.
pub fn first<T, P: Test<T>>(entries: &[T], test: &P) -> Option<usize>
    ensures first { FirstOf (P.Test.holds test.now) entries.now result }
    ensures some { is_some result ≡ list_any (P.Test.holds test.now) entries.now }
{
    entries.iter().position(|entry| test.meets(entry))
}

// Whether some entry meets the test.
pub fn any<T, P: Test<T>>(entries: &[T], test: &P) -> bool
    ensures { result ≡ list_any (P.Test.holds test.now) entries.now }
{
    first(entries, test).is_some()
}
