// What a writer wrote, or its refusal.
ghost use Rattle.render.specs.Print.{Prints};
ghost use Rattle.render.specs.Written.{wrote_line, written_by};

use crate::hex::hex;
use crate::refusal::Refusal;
use crate::word::{number, word};
use text::bytes::part;

// How many bytes were written, and they.
fn wrote(buf: &mut [u8], at: usize, target: &[u8], n: usize) -> usize
    ensures { Prints buf.old at (wrote_line target.now n) result buf.new }
{
    let at = word(buf, at, b"wrote ");
    let at = number(buf, at, n as u64);
    let at = word(buf, at, b" ");
    hex(buf, at, part(target, 0, n))
}

pub fn answer<E: Refusal>(buf: &mut [u8], at: usize, target: &[u8], a: Result<usize, E>) -> usize
    ensures { Prints buf.old at (written_by E.line target.now a) result buf.new }
{
    match a {
        Ok(n) => wrote(buf, at, target, n),
        Err(e) => e.print(buf, at),
    }
}
