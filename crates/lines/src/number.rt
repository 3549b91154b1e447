// Numbers of decimal digits alone.
ghost use Rattle.std.specs.Prelude.{◌+◌, ◌*◌, ◌≤◌, min, ◌≡◌};
ghost use Rattle.lines.specs.Number.{number_in, amount_of};

// Numbers above this count as this: it is the first that 32 bits do not hold.
const LARGEST: usize = 4294967296;

// A number with one digit more.
fn longer(n: usize, digit: u8) -> usize
    requires { n ≤ 4294967296 }
    ensures { result ≡ min (n * 10 + digit) 4294967296 }
{
    LARGEST.min(n * 10 + usize::from(digit))
}

// One or more digits, and nothing else.
pub fn decimal(s: &[u8]) -> Option<usize>
    ensures { amount_of result ≡ number_in s.now }
{
    if s.is_empty() {
        return None;
    }
    let mut n = 0;
    for b in s {
        if !b.is_ascii_digit() {
            return None;
        }
        n = longer(n, *b - b'0');
    }
    Some(n)
}
