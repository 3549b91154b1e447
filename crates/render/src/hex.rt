// Bytes in lower-case hex, two digits each; a dash where there are none.
ghost use Rattle.std.specs.Prelude.{◌≡◌, ◌<◌};
ghost use Rattle.render.specs.Print.{Prints};
ghost use Rattle.render.specs.Words.{digit, pairs_of, hex_of};

use crate::word::{byte, word};

fn glyph(n: u8) -> u8
    requires { n < 16 }
    ensures { result ≡ digit n }
{
    let digits = *b"0123456789abcdef";
    digits[usize::from(n)]
}

fn pairs(buf: &mut [u8], at: usize, s: &[u8]) -> usize
    ensures { Prints buf.old at (pairs_of s.now) result buf.new }
{
    let mut to = at;
    for b in s {
        to = byte(buf, to, glyph(*b / 16));
        to = byte(buf, to, glyph(*b % 16));
    }
    to
}

pub(crate) fn hex(buf: &mut [u8], at: usize, s: &[u8]) -> usize
    ensures { Prints buf.old at (hex_of s.now) result buf.new }
{
    if s.is_empty() {
        word(buf, at, b"-")
    } else {
        pairs(buf, at, s)
    }
}
