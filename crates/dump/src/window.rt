// The ranges of a dump, window by window.
ghost use Rattle.std.specs.Prelude.{◌≡◌, ◌≤◌, true, length};
ghost use Rattle.lines.specs.Output.{Holds};
ghost use Rattle.scan.specs.Window.{decided_places};
ghost use Rattle.dump.specs.Put.{frame_bytes};
ghost use Rattle.dump.specs.Window.{Lists, after_kept, Reports, GoesOn, Buffers};

use crate::put::{Form, put_end, put_frame};
use crate::total::{Totals, count_frame, count_skipped};
use lines::input::{move_to_front, read_full};
use lines::output::{Out, say_failure, write_out};
use scan::listed::{Listed, range_at};
use scan::scan;
use scan::window::{decided_bytes, decided_places};
use std::io::Read;
use text::bytes::part;

// A dump in which a window begins at a place: how many bytes of that window are at hand, how many of them are reported or skipped for good, how many
// skipped bytes are still to be reported, what was counted, and what is to be written.
#[derive(Clone, Copy)]
pub(crate) struct Dumping {
    pub held: usize,
    pub place: usize,
    pub used: usize,
    pub pending: usize,
    pub totals: Totals,
    pub out: Out,
}

// A frame at a place of the dump.
fn keep(
    rt: &impl Print,
    output: &mut [u8],
    form: Form,
    place: usize,
    frame: &[u8],
    d: Dumping,
) -> Dumping
    requires { (131072 ≤ length output.old) × (length frame.now ≤ 4099) }
    ensures { (result ≡ after_kept d d.used frame.now result.out) × Holds output.old d.out (frame_bytes form place d.pending frame.now) result.out output.new }
{
    let mut r = d;
    r.out = put_frame(rt, output, d.out, form, place, d.pending, frame);
    r.pending = 0;
    r.totals = count_frame(d.totals, frame);
    r
}

// The first `n` bytes of a range, which are decided.
pub(crate) fn report(
    rt: &impl Print,
    output: &mut [u8],
    form: Form,
    src: &[u8],
    range: Listed,
    n: usize,
    d: Dumping,
) -> Dumping
    requires { (131072 ≤ length output.old) × (range.kept ≡ true → n ≤ 4099) }
    ensures { Reports form src.now range n d output.old result output.new }
{
    let mut r = d;
    r.used = range.start.wrapping_add(n);
    if range.kept {
        let place = d.place.wrapping_add(range.start);
        return keep(rt, output, form, place, part(src, range.start, n), r);
    }
    r.pending = d.pending.wrapping_add(n);
    r.totals = count_skipped(d.totals, n);
    r
}

// The ranges of a window, as far as they are decided.
fn ranges(
    rt: &impl Print,
    output: &mut [u8],
    form: Form,
    src: &[u8],
    list: &[u32],
    count: usize,
    places: usize,
    d: Dumping,
) -> Dumping
    requires { (131072 ≤ length output.old) × Lists src.now list.now count }
    ensures { GoesOn src.now places d result }
{
    let mut r = d;
    for i in 0..count {
        let range = range_at(list, i);
        let n = decided_bytes(range, places);
        if n == 0 {
            break;
        }
        r = report(rt, output, form, src, range, n, r);
    }
    r
}

// A window, with which the dump ends or not.
fn window(
    rt: &impl Print,
    output: &mut [u8],
    form: Form,
    src: &[u8],
    list: &mut [u32],
    is_end: bool,
    d: Dumping,
) -> Dumping
    requires { (131072 ≤ length output.old) × (length src.now ≤ 65536) × (56175 ≤ length list.old) }
    ensures { GoesOn src.now (decided_places (length src.now) is_end) d result }
{
    match scan(src, list) {
        Ok(count) => ranges(
            rt,
            output,
            form,
            src,
            list,
            count,
            decided_places(src.len(), is_end),
            d,
        ),
        // A window is not too long, and the list has room for the ranges of any, so this is not reached.
        Err(_) => d,
    }
}

// At the dump's end, what is left to be reported.
fn end(rt: &impl Print, output: &mut [u8], form: Form, is_end: bool, d: Dumping) -> Out
    requires { 131072 ≤ length output.old }
{
    if is_end {
        let place = d.place.wrapping_add(d.used);
        return put_end(rt, output, d.out, form, place, d.pending, d.totals);
    }
    d.out
}

// Reads on until the window is full or the dump ends, and carries over what is not decided yet. `None`: the dump has ended, or nothing can be read or
// written any more.
fn turn(
    rt: &(impl Print + Eprint),
    from: &mut impl Read,
    input: &mut [u8],
    list: &mut [u32],
    output: &mut [u8],
    form: Form,
    d: Dumping,
) -> Option<Dumping>
    requires { Buffers input.old list.old output.old }
{
    let count = match read_full(from, input, d.held) {
        Ok(n) => n,
        Err(e) => {
            say_failure(rt, "dump: cannot read standard input", Some(e.why));
            return None;
        }
    };
    let is_end = count < input.len();
    let mut r = d;
    r.used = 0;
    r = window(rt, output, form, part(input, 0, count), list, is_end, r);
    let out = end(rt, output, form, is_end, r);
    r.out = write_out(rt, output, out);
    if r.out.failed.is_some() {
        say_failure(rt, "dump: cannot write standard output", r.out.failed);
        return None;
    }
    if is_end {
        return None;
    }
    r.held = move_to_front(input, r.used, count);
    r.place = r.place.wrapping_add(r.used);
    Some(r)
}

// A proved loop has to end, and nothing says that the input does. So the turns are counted, to a number that no run uses up.
pub(crate) fn run(
    rt: &(impl Print + Eprint),
    from: &mut impl Read,
    input: &mut [u8],
    list: &mut [u32],
    output: &mut [u8],
    form: Form,
    count: usize,
)
    requires { Buffers input.old list.old output.old }
{
    let mut d = Dumping {
        held: 0,
        place: 0,
        used: 0,
        pending: 0,
        totals: Totals {
            kept: 0,
            refused: 0,
            skipped: 0,
        },
        out: Out::new(count),
    };
    for _ in 0..u64::MAX {
        let Some(next) = turn(rt, from, input, list, output, form, d) else {
            break;
        };
        d = next;
    }
}
