// What is put into the output for a range.
ghost use Rattle.std.specs.Prelude.{◌≡◌, ◌-◌, ◌≤◌, ◌++◌, length};
ghost use Rattle.render.specs.Print.{Prints};
ghost use Rattle.lines.specs.Output.{Holds};
ghost use Rattle.dump.specs.Put.{record_at, kept_bytes, skipped_bytes, frame_bytes, total_bytes};

use crate::total::{Totals, total_line};
use lines::output::{Out, with_room};
use pcap::write::write_record;
use render::word::word;
use scan::listed::Listed;
use text::bytes::part;

#[derive(Clone, Copy)]
pub(crate) enum Form {
    Lines,
    Capture,
}

// A frame at a place of the dump, with that many microseconds as its time.
fn put_record(output: &mut [u8], at: usize, place: usize, frame: &[u8]) -> usize
    ensures { Prints output.old at (record_at place frame.now) result output.new }
{
    let mut record = [0u8; 4115];
    let seconds = (place / 1000000 % 4294967296) as u32;
    let microseconds = (place % 1000000) as u32;
    match write_record(&mut record, seconds, microseconds, frame) {
        Ok(n) => word(output, at, part(&record, 0, n)),
        Err(_) => at,
    }
}

fn put_kept(output: &mut [u8], at: usize, form: Form, place: usize, frame: &[u8]) -> usize
    ensures { Prints output.old at (kept_bytes form place frame.now) result output.new }
{
    match form {
        Form::Lines => {
            let r = Listed {
                start: place,
                len: frame.len(),
                kept: true,
            };
            let next = render::range::meaning(output, at, r, frame);
            word(output, next, b"\n")
        }
        Form::Capture => put_record(output, at, place, frame),
    }
}

// Bytes that are skipped up to a place.
fn put_skipped(output: &mut [u8], at: usize, form: Form, end: usize, len: usize) -> usize
    ensures { Prints output.old at (skipped_bytes form end len) result output.new }
{
    if len == 0 {
        return at;
    }
    match form {
        Form::Lines => {
            let r = Listed {
                start: end.saturating_sub(len),
                len,
                kept: false,
            };
            let next = render::range::range(output, at, r);
            word(output, next, b"\n")
        }
        Form::Capture => at,
    }
}

// A frame at a place, after bytes that are skipped up to there.
pub(crate) fn put_frame(
    rt: &impl Print,
    output: &mut [u8],
    o: Out,
    form: Form,
    place: usize,
    skipped: usize,
    frame: &[u8],
) -> Out
    requires { (131072 ≤ length output.old) × (length frame.now ≤ 4099) }
    ensures { Holds output.old o (frame_bytes form place skipped frame.now) result output.new }
{
    let mut out = with_room(rt, output, o);
    let next = put_skipped(output, out.count, form, place, skipped);
    out.count = put_kept(output, next, form, place, frame);
    out
}

fn put_total(output: &mut [u8], at: usize, form: Form, t: Totals, size: usize) -> usize
    ensures { Prints output.old at (total_bytes form t size) result output.new }
{
    match form {
        Form::Lines => total_line(output, at, t, size as u64),
        Form::Capture => at,
    }
}

// What is left to be put where the dump ends: bytes that are skipped up to there, and what was counted.
pub(crate) fn put_end(
    rt: &impl Print,
    output: &mut [u8],
    o: Out,
    form: Form,
    end: usize,
    skipped: usize,
    t: Totals,
) -> Out
    requires { 131072 ≤ length output.old }
    ensures { Holds output.old o (skipped_bytes form end skipped ++ total_bytes form t end) result output.new }
{
    let mut out = with_room(rt, output, o);
    let next = put_skipped(output, out.count, form, end, skipped);
    out.count = put_total(output, next, form, t, end);
    out
}
