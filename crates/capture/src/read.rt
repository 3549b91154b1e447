// `capture read`: a capture on standard input, and a line for each of its records.
ghost use Rattle.std.specs.Prelude.{◌≡◌, ◌+◌, ◌≤◌, length};
ghost use Rattle.text.specs.Put.{placed};
ghost use Rattle.capture.specs.Record.{record_line};

use crate::window::{Window, at_hand, refill};
use lines::output::{Out, say_failure, with_room, write_out};
use pcap::read::{read_header, read_record};
use pcap::{ByteOrder, CaptureError};
use render::word::word;
use std::io::Read;
use text::bytes::part;

// So many bytes decide any record (`enough_decides`): where there are fewer, it may be that more have to be read first.
const ENOUGH: usize = 4115;

// How many bytes the records took up, and what is to be written.
#[derive(Clone, Copy)]
struct Found {
    used: usize,
    out: Out,
}

// A reader between two turns: the bytes at hand, and the place of the first of them in the file.
#[derive(Clone, Copy)]
struct Reading {
    window: Window,
    place: usize,
}

// The line of a record, all of it: the output has room for the longest.
fn line(output: &mut [u8], at: usize, seconds: u32, microseconds: u32, frame: &[u8]) -> usize
    requires { (at ≤ 114000) × (131072 ≤ length output.old) × (length frame.now ≤ 4099) }
    ensures { (result ≡ at + length (record_line seconds microseconds frame.now)) × (output.new ≡ placed output.old at (record_line seconds microseconds frame.now)) }
{
    let next = render::capture::meaning(output, at, seconds, microseconds, frame);
    word(output, next, b"\n")
}

// A line for each record that is found, one after the other, up to the end or to one that is refused.
fn lines(rt: &impl Print, output: &mut [u8], src: &[u8], order: ByteOrder) -> Found
    requires { 131072 ≤ length output.old }
    ensures { result.used ≤ length src.now }
{
    let mut out = Out::new(0);
    let mut used = 0;
    while let Some(r) = read_record(order, src, used).unwrap_or(None) {
        out = with_room(rt, output, out);
        out.count = line(
            output,
            out.count,
            r.seconds,
            r.microseconds,
            part(src, r.start, r.len),
        );
        used = r.next;
    }
    Found { used, out }
}

// `err` prints to standard error.
fn refuse(err: &impl Print, output: &mut [u8], e: CaptureError, place: usize) {
    let next = render::refusal::refused_at(output, 0, e, place);
    let n = word(output, next, b"\n");
    let _ = err.write_all(part(output, 0, n));
}

// Writes the lines of the records at hand, and reads more if it may be that a record is not whole yet. `None`: there is nothing more to do.
fn turn(
    rt: &(impl Print + Eprint),
    err: &impl Print,
    from: &mut impl Read,
    input: &mut [u8],
    output: &mut [u8],
    order: ByteOrder,
    r: Reading,
) -> Option<Reading>
    requires { 131072 ≤ length output.old }
{
    let src = at_hand(input, r.window);
    let left = src.len();
    let found = lines(rt, output, src, order);
    let out = write_out(rt, output, found.out);
    if out.failed.is_some() {
        say_failure(rt, "capture: cannot write standard output", out.failed);
        return None;
    }
    let place = r.place.wrapping_add(found.used);
    let window = r.window.after(found.used);
    if window.is_open && left - found.used < ENOUGH {
        let window = refill(rt, from, input, window)?;
        return Some(Reading { window, place });
    }
    if found.used < left {
        refuse(err, output, CaptureError::CaptureRecordInvalid, place);
    }
    None
}

// A proved loop has to end, and nothing says that the input does. So the turns are counted, to a number that no run uses up.
fn records(
    rt: &(impl Print + Eprint),
    err: &impl Print,
    from: &mut impl Read,
    input: &mut [u8],
    output: &mut [u8],
    order: ByteOrder,
    window: Window,
)
    requires { 131072 ≤ length output.old }
{
    let mut r = Reading { window, place: 24 };
    for _ in 0..u64::MAX {
        let Some(next) = turn(rt, err, from, input, output, order, r) else {
            break;
        };
        r = next;
    }
}

// Reads until 24 bytes are at hand, or no more follow. Each turn reads a byte or more.
fn header_at_hand(rt: &impl Eprint, from: &mut impl Read, input: &mut [u8]) -> Option<Window> {
    let mut w = Window::new();
    for _ in 0..24 {
        if !w.is_open || 24 <= w.end {
            break;
        }
        w = refill(rt, from, input, w)?;
    }
    Some(w)
}

pub(crate) fn read(
    rt: &(impl Print + Eprint),
    err: &impl Print,
    from: &mut impl Read,
    input: &mut [u8],
    output: &mut [u8],
)
    requires { 131072 ≤ length output.old }
{
    let Some(w) = header_at_hand(rt, from, input) else {
        return;
    };
    match read_header(at_hand(input, w)) {
        Ok(header) => records(rt, err, from, input, output, header.order, w.after(24)),
        Err(e) => refuse(err, output, e, 0),
    }
}
