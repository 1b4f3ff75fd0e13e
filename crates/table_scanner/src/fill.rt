// Filling calls as a setup tool sends them: everything that has a name goes by its number, so these are u32 and not
// names, and the parts of a point come apart.
#[derive(Clone, Copy)]
pub enum Given {
    Word(u32),
    Number(i32),
}

#[derive(Clone, Copy)]
pub enum Fill {
    // A source with its home format.
    Source(u32, u32),
    // A format of a source.
    Format(u32, u32),
    // An attribute of a pair, with its power-on value.
    Attribute(u32, u32, u32, Given),
    // The numbers low, low + step and so on up to high, at a point.
    Range(u32, u32, u32, i32, i32, i32),
    // A word, at a point.
    Word(u32, u32, u32, u32),
    // The home source.
    Home(u32),
}
