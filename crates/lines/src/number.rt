ghost use Rattle.std.specs.Prelude.{◌≡◌, ℕ, ◌≤◌, ◌<◌, length, take, MatchOption};
ghost use Rattle.lines.specs.Lines.{Fronted, Leading};
ghost use Rattle.records.specs.Reading.{digit, digits_in, shortest, sixteen};

// The number that shortest decimal digits write, at most so many and up to a line feed, and how many they are.
#[inline(always)]
pub(crate) fn decimal(s: &[u8], most: usize) -> Option<(usize, u64)>
    requires { most ≤ 16 }
    ensures { Fronted shortest 10 most s.now result }
{
    let (n, number) = number_in(10, s, most)?;
    match &s[..n] {
        [] | [b'0', _, ..] => None,
        _ => Some((n, number)),
    }
}

// The number that sixteen lower-case hexadecimal digits write, up to a line feed.
#[inline(always)]
pub(crate) fn hexadecimal(s: &[u8]) -> Option<(usize, u64)>
    ensures { Fronted sixteen 16 16 s.now result }
{
    let (n, number) = number_in(16, s, 16)?;
    if n == 16 { Some((n, number)) } else { None }
}

// The number that digits of a base write, at most so many and up to a line feed, and how many they are.
#[inline(always)]
fn number_in(base: u64, s: &[u8], most: usize) -> Option<(usize, u64)>
    requires base { base ≤ 16 }
    requires short { most ≤ 16 }
    ensures { Fronted (digits_in base) base most s.now result }
{
    let (n, number) = leading(base, front(s, most));
    if s.get(n) == Some(&b'\n') {
        Some((n, number))
    } else {
        None
    }
}

// At most so many bytes at the front of `s`.
fn front(s: &[u8], most: usize) -> &[u8]
    ensures { result.now ≡ take most s.now }
{
    &s[..most.min(s.len())]
}

// How many digits of a base `bytes` begin with, and the number that they write.
// Not `from_str_radix`: it would take a sign in front, and capitals.
#[inline(always)]
fn leading(base: u64, bytes: &[u8]) -> (usize, u64)
    requires base { base ≤ 16 }
    requires short { length bytes.now ≤ 16 }
    ensures { Leading base bytes.now result }
{
    let mut n = 0;
    for (i, b) in bytes.iter().enumerate() {
        let Some(d) = digit_of(*b, base) else {
            return (i, n);
        };
        n = n * base + d;
    }
    (bytes.len(), n)
}

// What a byte writes as a digit of a base.
fn digit_of(b: u8, base: u64) -> Option<u64>
    requires { base ≤ 16 }
    ensures { MatchOption result (base ≤ digit b) (λ d. (d ≡ digit b) × (d < base)) }
{
    let d = match b {
        b'0'..=b'9' => b - b'0',
        b'a'..=b'f' => b - b'a' + 10,
        _ => return None,
    };
    Some(u64::from(d)).filter(|d| *d < base)
}
