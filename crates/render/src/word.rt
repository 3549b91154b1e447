// Bytes and numbers.
ghost use Rattle.std.specs.Prelude.{[], ◌∷◌};
ghost use Rattle.text.specs.Decimal.{decimal};
ghost use Rattle.render.specs.Print.{Prints};
ghost use Rattle.render.specs.Walk.{place_line};

pub(crate) fn byte(buf: &mut [u8], at: usize, b: u8) -> usize
    ensures { Prints buf.old at (b ∷ []) result buf.new }
{
    if at < buf.len() {
        buf[at] = b;
        at + 1
    } else {
        at
    }
}

pub fn word(buf: &mut [u8], at: usize, s: &[u8]) -> usize
    ensures { Prints buf.old at s.now result buf.new }
{
    let mut to = at;
    for b in s {
        to = byte(buf, to, *b);
    }
    to
}

// Callers widen by `as`: a `usize` has no `From` into `u64`, and one spelling serves all widths.
pub fn number(buf: &mut [u8], at: usize, n: u64) -> usize
    ensures { Prints buf.old at (decimal n) result buf.new }
{
    let mut digits = [0u8; 20];
    let k = io::decimal(n, &mut digits);
    word(buf, at, &digits[..k])
}

// A place in the bytes that were read.
pub(crate) fn place_after(buf: &mut [u8], at: usize, place: usize) -> usize
    ensures { Prints buf.old at (place_line place) result buf.new }
{
    let at = word(buf, at, b" @");
    number(buf, at, place as u64)
}
