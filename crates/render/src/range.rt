// Ranges of a dump.
ghost use Rattle.std.specs.Prelude.{◌++◌};
ghost use Rattle.text.specs.Bytes.{bytes};
ghost use Rattle.edm.specs.Frame.{read_frame};
ghost use Rattle.render.specs.Print.{Prints};
ghost use Rattle.render.specs.Frame.{frame_line};
ghost use Rattle.render.specs.Range.{mark_word, range_line};

use crate::word::{number, word};
use scan::listed::Listed;

fn mark(buf: &mut [u8], at: usize, kept: bool) -> usize
    ensures { Prints buf.old at (mark_word kept) result buf.new }
{
    if kept {
        word(buf, at, b"kept ")
    } else {
        word(buf, at, b"skipped ")
    }
}

pub fn range(buf: &mut [u8], at: usize, r: Listed) -> usize
    ensures { Prints buf.old at (range_line r) result buf.new }
{
    let at = mark(buf, at, r.kept);
    let at = number(buf, at, r.start as u64);
    let at = word(buf, at, b"+");
    number(buf, at, r.len as u64)
}

// A range, and what its frame means.
pub fn meaning(buf: &mut [u8], at: usize, r: Listed, frame: &[u8]) -> usize
    ensures { Prints buf.old at (range_line r ++ bytes " " ++ frame_line frame.now (read_frame frame.now)) result buf.new }
{
    let at = range(buf, at, r);
    let at = word(buf, at, b" ");
    crate::frame::answer(buf, at, frame, edm::frame::read(frame))
}
