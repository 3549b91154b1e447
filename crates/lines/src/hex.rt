// Bytes in hex, as people paste them.
ghost use Rattle.std.specs.Prelude.{ℕ, ◌≤◌, ◌<◌, ◌≡◌, List, ◌++◌, length, drop, cond, position, Ok, Err};
ghost use Rattle.lines.specs.Hex.{digit_of, is_digit, spells, pairs, bytes_in, answer, after};
ghost use Rattle.lines.specs.declared.hex.HexError.TheVariants.{NoHex};
ghost use Rattle.lines.specs.Steps.{no_space, step_of, Shorter, counted};

use text::bytes::same;

// The text spells no bytes, or it spells more than there is room for.
#[derive(Clone, Copy)]
pub enum HexError {
    NoHex,
    NoRoom,
}

// A byte that is spelt, and the text after its digits.
#[derive(Clone, Copy)]
struct Pair<'a> {
    value: u8,
    rest: &'a [u8],
}

// The value of a hex digit.
fn digit(b: u8) -> Result<u8, HexError>
    ensures { result ≡ cond (is_digit b) (Ok (digit_of b)) (Err NoHex) }
{
    match b {
        b'0'..=b'9' => Ok(b - b'0'),
        b'A'..=b'F' => Ok(b - b'A' + 10),
        b'a'..=b'f' => Ok(b - b'a' + 10),
        _ => Err(HexError::NoHex),
    }
}

// The place of the first byte that is no space.
fn past_spaces(s: &[u8]) -> Option<usize>
    ensures { result ≡ position no_space s.now }
{
    s.iter().position(|b| *b != b' ')
}

// The first byte that is spelt, after spaces; or that none is.
fn next(s: &[u8]) -> Result<Option<Pair<'_>>, HexError>
    ensures step { step_of result ≡ pairs s.now }
    ensures shorter { Shorter (length s.now) result }
{
    let Some(i) = past_spaces(s) else {
        return Ok(None);
    };
    let [high, low, rest @ ..] = &s[i..] else {
        return Err(HexError::NoHex);
    };
    let high = digit(*high)?;
    let low = digit(*low)?;
    let value = high * 16 + low;
    Ok(Some(Pair { value, rest }))
}

// How many bytes the text spells.
fn count(s: &[u8]) -> Result<usize, HexError>
    ensures { result ≡ counted 0 (pairs s.now) }
{
    let mut n = 0;
    let mut left = s;
    while let Some(pair) = next(left)? {
        n += 1;
        left = pair.rest;
    }
    Ok(n)
}

// Puts the bytes that the text spells, which have room, at the start of `bytes`.
fn fill(bytes: &mut [u8], s: &[u8])
    ensures { (x : List ℕ) → pairs s.now ≡ spells x → length x ≤ length bytes.old → bytes.new ≡ x ++ drop (length x) bytes.old }
{
    let mut left = s;
    for to in bytes {
        let Ok(Some(pair)) = next(left) else {
            return;
        };
        *to = pair.value;
        left = pair.rest;
    }
}

// Puts the bytes that the text spells at the start of `bytes`, and answers how many they are. A dash spells no bytes.
pub fn decode(bytes: &mut [u8], s: &[u8]) -> Result<usize, HexError>
    ensures { (result ≡ answer (length bytes.old) (bytes_in s.now)) × (bytes.new ≡ after bytes.old (bytes_in s.now)) }
{
    if same(s, b"-") {
        return Ok(0);
    }
    let n = count(s)?;
    if n == 0 {
        return Err(HexError::NoHex);
    }
    if bytes.len() < n {
        return Err(HexError::NoRoom);
    }
    fill(bytes, s);
    Ok(n)
}
