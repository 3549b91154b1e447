// The fields of packets and responses, which have no lists of names: each after a space.
ghost use Rattle.std.specs.Prelude.{[], ◌∷◌, ◌++◌};
ghost use Rattle.text.specs.Bytes.{bytes};
ghost use Rattle.text.specs.Decimal.{decimal};
ghost use Rattle.at.specs.Event.{at as placed, text};
ghost use Rattle.render.specs.Print.{Prints};
ghost use Rattle.render.specs.Words.{word_of, values_line};

use crate::hex::hex;
use crate::word::{number, word};
use at::Text;
use text::bytes::part;

pub(crate) fn number_after(buf: &mut [u8], at: usize, n: u64) -> usize
    ensures { Prints buf.old at (bytes " " ++ decimal n) result buf.new }
{
    let at = word(buf, at, b" ");
    number(buf, at, n)
}

// The bytes of a place in `src`.
pub(crate) fn text_after(buf: &mut [u8], at: usize, src: &[u8], t: Text) -> usize
    ensures { Prints buf.old at (bytes " " ++ word_of text src.now (placed t)) result buf.new }
{
    let at = word(buf, at, b" ");
    hex(buf, at, part(src, t.start, t.len))
}

// A name, and a text after it.
pub(crate) fn named_text(buf: &mut [u8], at: usize, src: &[u8], name: &[u8], t: Text) -> usize
    ensures { Prints buf.old at (name.now ++ values_line [] src.now (placed t ∷ [])) result buf.new }
{
    let at = word(buf, at, name);
    text_after(buf, at, src, t)
}
