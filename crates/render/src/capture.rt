// Captures: times, records and refusals.
ghost use Rattle.pcap.specs.Read.{record_shown};
ghost use Rattle.render.specs.Print.{Prints};
ghost use Rattle.render.specs.Capture.{six_digits, time_line, record_line, outcome_line, meaning_line};

use crate::hex::hex;
use crate::refusal::refused_at;
use crate::word::{number, place_after, word};
use pcap::{CaptureError, Record};

// A digit always fits a byte: `u8::try_from` would add a refusal that never comes.
fn six_digits(buf: &mut [u8], at: usize, n: u32) -> usize
    ensures { Prints buf.old at (six_digits n) result buf.new }
{
    let digits = [
        b'0' + (n / 100000 % 10) as u8,
        b'0' + (n / 10000 % 10) as u8,
        b'0' + (n / 1000 % 10) as u8,
        b'0' + (n / 100 % 10) as u8,
        b'0' + (n / 10 % 10) as u8,
        b'0' + (n % 10) as u8,
    ];
    word(buf, at, &digits)
}

fn time(buf: &mut [u8], at: usize, seconds: u32, microseconds: u32) -> usize
    ensures { Prints buf.old at (time_line seconds microseconds) result buf.new }
{
    let at = number(buf, at, seconds as u64);
    let at = word(buf, at, b".");
    six_digits(buf, at, microseconds)
}

fn record(buf: &mut [u8], at: usize, r: Record) -> usize
    ensures { Prints buf.old at (record_line r.seconds r.microseconds r.start r.len) result buf.new }
{
    let at = time(buf, at, r.seconds, r.microseconds);
    let at = place_after(buf, at, r.start);
    let at = word(buf, at, b"+");
    number(buf, at, r.len as u64)
}

// What was read at a place.
pub fn answer(
    buf: &mut [u8],
    at: usize,
    place: usize,
    a: Result<Option<Record>, CaptureError>,
) -> usize
    ensures { Prints buf.old at (outcome_line place (record_shown a)) result buf.new }
{
    match a {
        Ok(Some(r)) => record(buf, at, r),
        Ok(None) => word(buf, at, b"end"),
        Err(e) => refused_at(buf, at, e, place),
    }
}

// A record's time, its frame, and what the frame means.
pub fn meaning(buf: &mut [u8], at: usize, seconds: u32, microseconds: u32, frame: &[u8]) -> usize
    ensures { Prints buf.old at (meaning_line seconds microseconds frame.now) result buf.new }
{
    let at = time(buf, at, seconds, microseconds);
    let at = word(buf, at, b" ");
    let at = hex(buf, at, frame);
    let at = word(buf, at, b" # ");
    crate::frame::answer(buf, at, frame, edm::frame::read(frame))
}
