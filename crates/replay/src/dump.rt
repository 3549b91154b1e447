// Every range of one dump.
ghost use Rattle.std.specs.Prelude.{◌≡◌, ℕ, List, ◌++◌, length};
ghost use Rattle.scan.specs.Cut.{Piece, rows};
ghost use Rattle.scan.specs.Scan.{scanned};
ghost use Rattle.render.specs.Print.{Prints};
ghost use Rattle.render.specs.Range.{ranges_line, scan_line};

use render::range::range;
use render::refusal::Refusal;
use render::word::word;
use scan::listed::range_at;

// The ranges that are listed, with a semicolon between two.
fn ranges(output: &mut [u8], place: usize, list: &[u32], count: usize) -> usize
    ensures { (ps : List Piece) (more : List ℕ) → list.now ≡ rows 0 ps ++ more → count ≡ length ps → Prints output.old place (ranges_line ps) result output.new }
{
    if count == 0 {
        return word(output, place, b"-");
    }
    let mut to = range(output, place, range_at(list, 0));
    for i in 1..count {
        to = word(output, to, b" ; ");
        to = range(output, to, range_at(list, i));
    }
    to
}

pub(crate) fn every_range(output: &mut [u8], place: usize, src: &[u8]) -> usize
    ensures { Prints output.old place (scan_line (scanned src.now 56175)) result output.new }
{
    let mut list = [0u32; 56175];
    match scan::scan(src, &mut list) {
        Ok(count) => ranges(output, place, &list, count),
        Err(e) => e.print(output, place),
    }
}
