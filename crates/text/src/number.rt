// Decimal numbers of 8, 16 and 32 bits, read from a text: an optional plus, then one or more digits.
ghost use Rattle.std.specs.Prelude.{◌≡◌, ℕ, ◌^◌, ◌%◌, ◌≤◌, ◌<◌};
ghost use Rattle.text.specs.Number.{is_digit, digits, signed, number, shown};
ghost use Rattle.text.specs.NumberSteps.{itself, too_large};

// Why a text is no number of a width: it is empty; a byte of it is not allowed, which is no digit and no plus in front of a digit; or every
// byte is allowed, and the number is too large.
#[derive(Clone, Copy)]
pub enum NumberError {
    Empty,
    Byte,
    Large,
}

// A width in bits, up to 32, that a number may have.
pub trait Width {
    ghost bits: { ℕ };

    ghost value: { Self → ℕ };

    // The first number that has more bits.
    fn limit() -> u64
        ensures { (result ≡ 2 ^ bits) × (0 < result) × (result ≤ 4294967296) };

    // A number at this width: the bits for which it has no room are lost.
    fn narrow(n: u64) -> Self
        ensures { value result ≡ n % 2 ^ bits };

    ghost apart: { (a b : Self) → value a ≡ value b → a ≡ b };
}

fn is_digit(b: u8) -> bool
    ensures { result ≡ is_digit b }
{
    matches!(b, b'0'..=b'9')
}

// Why digits spell no number once they have reached the limit: it is too large where the bytes after them are digits too.
fn too_large(rest: &[u8]) -> NumberError
    ensures { result ≡ too_large rest.now }
{
    if rest.iter().all(|&b| is_digit(b)) {
        NumberError::Large
    } else {
        NumberError::Byte
    }
}

// The number below a limit that digits spell.
fn digits(s: &[u8], limit: u64) -> Result<u64, NumberError>
    requires { (0 < limit) × (limit ≤ 4294967296) }
    ensures { shown itself result ≡ digits limit s.now }
{
    if s.is_empty() {
        return Err(NumberError::Byte);
    }
    let mut value = 0;
    for (i, &b) in s.iter().enumerate() {
        if !is_digit(b) {
            return Err(NumberError::Byte);
        }
        value = value * 10 + u64::from(b - b'0');
        if limit <= value {
            return Err(too_large(&s[i + 1..]));
        }
    }
    Ok(value)
}

// The same, with a plus in front or none.
fn read_below(s: &[u8], limit: u64) -> Result<u64, NumberError>
    requires { (0 < limit) × (limit ≤ 4294967296) }
    ensures { shown itself result ≡ signed limit s.now }
{
    match s {
        [] => Err(NumberError::Empty),
        [b'+', rest @ ..] => digits(rest, limit),
        _ => digits(s, limit),
    }
}

pub fn read<T: Width>(s: &[u8]) -> Result<T, NumberError>
    ensures { shown T.value result ≡ number T.bits s.now }
{
    let n = read_below(s, T::limit())?;
    Ok(T::narrow(n))
}

impl Width for u8 {
    ghost bits = { 8 };

    ghost value = { λ n. n };

    ghost apart = { λ a b e. e };

    fn limit() -> u64 {
        256
    }

    fn narrow(n: u64) -> u8 {
        (n % 256) as u8
    }
}

impl Width for u16 {
    ghost bits = { 16 };

    ghost value = { λ n. n };

    ghost apart = { λ a b e. e };

    fn limit() -> u64 {
        65536
    }

    fn narrow(n: u64) -> u16 {
        (n % 65536) as u16
    }
}

impl Width for u32 {
    ghost bits = { 32 };

    ghost value = { λ n. n };

    ghost apart = { λ a b e. e };

    fn limit() -> u64 {
        4294967296
    }

    fn narrow(n: u64) -> u32 {
        (n % 4294967296) as u32
    }
}
