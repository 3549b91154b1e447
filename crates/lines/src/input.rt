// Standard input, in pieces as large as they come.
ghost use Rattle.std.specs.Prelude.{◌-◌, ◌≤◌, ◌<◌, ◌≡◌, length};
ghost use Rattle.text.specs.Bytes.{part};
ghost use Rattle.lines.specs.Input.{line_end, without_cr, with_front, ReadAfter, at_hand};

use std::io;
use std::io::Read;
use text::find::first_byte;

// Why no more could be read, and how many bytes there are all the same.
#[derive(Clone, Copy)]
pub struct Unread {
    pub count: usize,
    pub why: io::Error,
}

// Reads once, after the bytes that are kept, and answers how many there are then.
pub fn read_after<R: Read>(from: &mut R, input: &mut [u8], kept: usize) -> Result<usize, Unread>
    ensures { ReadAfter input.old kept (at_hand result) input.new }
{
    if input.len() < kept {
        return Ok(input.len());
    }
    match from.read(&mut input[kept..]) {
        Ok(n) => Ok(kept + n),
        Err(why) => Err(Unread { count: kept, why }),
    }
}

// Reads until the buffer is full or the input ends, after the bytes that are kept, and answers how many there are then.
pub fn read_full<R: Read>(from: &mut R, input: &mut [u8], kept: usize) -> Result<usize, Unread>
    ensures { ReadAfter input.old kept (at_hand result) input.new }
{
    let mut count = kept;
    while count < input.len() {
        let n = read_after(from, input, count)?;
        if n <= count {
            return Ok(n);
        }
        count = n;
    }
    Ok(input.len())
}

// The place of the first line end at `from` or after it, or the length of `s`.
pub fn line_end(s: &[u8], from: usize) -> usize
    ensures { (result ≡ line_end s.now from) × (result < length s.now → from ≤ result) }
{
    first_byte(s, from, b'\n').unwrap_or(s.len())
}

// A CR at the line's end does not count.
pub fn without_cr(line: &[u8]) -> &[u8]
    ensures { result.now ≡ without_cr line.now }
{
    line.strip_suffix(b"\r").unwrap_or(line)
}

// Moves the bytes from `start` up to `end` to the front, and answers how many they are.
pub fn move_to_front(input: &mut [u8], start: usize, end: usize) -> usize
    ensures { (result ≡ length (part input.old start (end - start))) × (input.new ≡ with_front input.old (part input.old start (end - start))) }
{
    let end = end.min(input.len());
    if end <= start {
        return 0;
    }
    // A line in pieces stands at the front already.
    if start == 0 {
        return end;
    }
    // A loop, of which the compiler moves many bytes at a time: `copy_within` takes six instructions for each.
    for i in 0..end - start {
        input[i] = input[start + i];
    }
    end - start
}
