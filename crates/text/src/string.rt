// What a string stands for: its escapes resolved.
ghost use Rattle.std.specs.Prelude.{◌≡◌, ◌==◌, Bool, true, false, not, map};
ghost use Rattle.std.specs.List.{list_any};
ghost use Rattle.text.specs.declared.string.Mode.TheVariants.{Plain};
ghost use Rattle.text.specs.Strings.{hex_value, plain_escape, unit, adds, goes, units, stands, lowered, alike, matching, Compares, Tells};

// How the characters of a string go on: as they stand, after a backslash, or among the digits of \u.
#[derive(Clone, Copy)]
pub enum Mode {
    Plain,
    Backslash,
    // How many digits follow the next one, and the value of those before it.
    Hex(u8, u16),
}

fn hex_value(b: u8) -> u16
    ensures { result ≡ hex_value b }
{
    match b {
        b'0'..=b'9' => u16::from(b - 48),
        b'A'..=b'F' => u16::from(b - 55),
        b'a'..=b'f' => u16::from(b - 87),
        _ => 0,
    }
}

// The character that a backslash and this letter stand for.
fn plain_escape(b: u8) -> u8
    ensures { result ≡ plain_escape b }
{
    match b {
        b'b' => 8,
        b'f' => 12,
        b'n' => 10,
        b'r' => 13,
        b't' => 9,
        _ => b,
    }
}

// What \u and this number stand for, kept apart from every byte where it is beyond ASCII.
fn unit_of(n: u16) -> u32
    ensures { result ≡ unit n }
{
    if n <= 127 {
        u32::from(n)
    } else {
        u32::from(n) + 256
    }
}

// What a byte adds to what the string stands for, and how the string goes on.
fn step(mode: Mode, b: u8) -> (Option<u32>, Mode)
    ensures { (result.0 ≡ adds mode b) × (result.1 ≡ goes mode b) }
{
    match (mode, b) {
        (Mode::Plain, b'\\') => (None, Mode::Backslash),
        (Mode::Plain, _) => (Some(u32::from(b)), Mode::Plain),
        (Mode::Backslash, b'u') => (None, Mode::Hex(3, 0)),
        (Mode::Backslash, _) => (Some(u32::from(plain_escape(b))), Mode::Plain),
        (Mode::Hex(left, value), _) => {
            let n = (value % 4096) * 16 + hex_value(b);
            match left {
                0 => (Some(unit_of(n)), Mode::Plain),
                _ => (None, Mode::Hex(left - 1, n)),
            }
        }
    }
}

// An ASCII letter in lower case; any other unit as it is.
fn lower(u: u32) -> u32
    ensures { result ≡ lowered u }
{
    match u {
        65..=90 => u + 32,
        _ => u,
    }
}

// Whether the units that the bytes stand for are the letters of the name, one by one, where `same` tells.
#[inline(always)]
fn compare<F: Fn(u32, u8) -> bool>(raw: &[u8], name: &[u8], same: F) -> bool
    requires { F.IsAlwaysCallable same }
    ensures { (fold : Bool) → Compares (F.post same) (alike fold) → result ≡ matching fold (units Plain raw.now) name.now }
{
    let mut mode = Mode::Plain;
    let mut letters = name.iter();
    for b in raw {
        let (added, next) = step(mode, *b);
        mode = next;
        if let Some(u) = added {
            match letters.next() {
                Some(letter) if same(u, *letter) => {}
                _ => return false,
            }
        }
    }
    letters.next().is_none()
}

// Whether no backslash is among the bytes; they then stand for themselves.
pub fn unescaped(raw: &[u8]) -> bool
    ensures told { result ≡ not (list_any (λ b. b == 92) raw.now) }
    ensures stands { result ≡ true → stands raw.now ≡ raw.now }
{
    !raw.contains(&b'\\')
}

// Whether the bytes are those of the name.
pub fn same(raw: &[u8], name: &[u8]) -> bool
    ensures tells { Tells result (raw.now ≡ name.now) }
    ensures letters { result ≡ matching false raw.now name.now }
{
    raw == name
}

// Whether the string with these bytes between its quotes stands for the letters of the name.
#[inline(always)]
pub fn spells(raw: &[u8], name: &[u8]) -> bool
    ensures tells { Tells result (stands raw.now ≡ name.now) }
    ensures letters { result ≡ matching false (stands raw.now) name.now }
{
    // By bytes where they are the name's own; else up to the first character that is not, however long the string is.
    if raw.len() == name.len() && same(raw, name) && unescaped(raw) {
        return true;
    }
    compare(raw, name, |u, letter| u == u32::from(letter))
}

// The same, ASCII letters in either case.
pub fn spells_ignoring_case(raw: &[u8], name: &[u8]) -> bool
    ensures tells { Tells result (map lowered (stands raw.now) ≡ map lowered name.now) }
    ensures letters { result ≡ matching false (map lowered (stands raw.now)) (map lowered name.now) }
{
    compare(raw, name, |u, letter| lower(u) == lower(u32::from(letter)))
}
