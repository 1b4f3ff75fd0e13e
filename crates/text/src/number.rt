// What a number stands for.
ghost use Rattle.std.specs.Prelude.{◌≡◌, ◌≤◌};
ghost use Rattle.text.specs.Numbers.{magnitude, up_to, integer_of};

// The largest value after which one more digit may still fit 31 bits.
const LARGEST_PREFIX: u32 = 214748364;

// The number that the digits write without a leading zero, if it is at most `most`.
// One match decides over each digit, by its range with guards on its place and on the size so far, so that all ways to fail stand together.
fn size_of(digits: &[u8], most: u32) -> Option<u32>
    requires { (2147483647 ≤ most) × (most ≤ 2147483648) }
    ensures { result ≡ up_to most (magnitude digits.now) }
{
    let count = digits.len();
    if count == 0 {
        return None;
    }
    let mut size: u32 = 0;
    for (i, b) in digits.iter().enumerate() {
        match *b {
            b'0' if i == 0 && count > 1 => return None,
            b'0'..=b'9' if size <= LARGEST_PREFIX => size = size * 10 + u32::from(*b - b'0'),
            _ => return None,
        }
    }
    (size <= most).then_some(size)
}

// The integer that a number stands for: no fraction, no exponent, within 32 bits with sign; minus zero is 0.
pub fn integer(raw: &[u8]) -> Option<i32>
    ensures { result ≡ integer_of raw.now }
{
    match raw {
        [b'-', digits @ ..] => size_of(digits, 2147483648).and_then(
            |size| 0i32.checked_sub_unsigned(size),
        ),
        _ => size_of(raw, 2147483647).map(|size| size as i32),
    }
}
