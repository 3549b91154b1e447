// What a line of `capture write` says.
ghost use Rattle.std.specs.Prelude.{◌≡◌, length};
ghost use Rattle.lines.specs.Hex.{bytes_in};
ghost use Rattle.lines.specs.Cut.{cut};
ghost use Rattle.capture.specs.Line.{is_blank, trimmed, content, time, around_point, stamp_in, record_of, said_in};
ghost use Rattle.capture.specs.Steps.{fault_of, stamp_of, said_of};

use lines::cut::cut_at;
use lines::hex::{HexError, decode};
use lines::number::decimal;
use std::fmt;

#[derive(Clone, Copy)]
pub(crate) enum Fault {
    NoTime,
    NoFrame,
    FrameTooLong,
}

impl From<HexError> for Fault {
    ghost from_gives = { λ e r. r ≡ fault_of e };

    fn from(e: HexError) -> Fault {
        match e {
            HexError::NoHex => Fault::NoFrame,
            HexError::NoRoom => Fault::FrameTooLong,
        }
    }
}

impl fmt::Display for Fault {
    fn fmt<W: fmt::Write>(&self, f: &mut fmt::Formatter<W>) -> fmt::Result {
        f.write_str(match self {
            Fault::NoTime => {
                "no time; it is SECONDS.MICROSECONDS, seconds below 4294967296 and six digits of microseconds"
            }
            Fault::NoFrame => {
                "no frame; after the time and a space it is hex, two digits for each byte, or - for an empty one"
            }
            Fault::FrameTooLong => "a frame has at most 4099 bytes",
        })
    }
}

#[derive(Clone, Copy)]
pub(crate) struct Stamp {
    pub seconds: u32,
    pub microseconds: u32,
}

// A record: its time, and how many bytes its frame has. They are the first ones of the buffer that the line was read into.
#[derive(Clone, Copy)]
pub(crate) struct Said {
    pub time: Stamp,
    pub len: usize,
}

fn is_blank(b: u8) -> bool
    ensures { result ≡ is_blank b }
{
    matches!(b, b' ' | b'\t' | b'\r')
}

// The text without the blanks at its end.
fn trim(s: &[u8]) -> &[u8]
    ensures { result.now ≡ trimmed s.now }
{
    let mut left = s;
    while let [rest @ .., last] = left {
        if !is_blank(*last) {
            return left;
        }
        left = rest;
    }
    left
}

// What stands before the note.
fn before_note(line: &[u8]) -> &[u8]
    ensures { result.now ≡ content line.now }
{
    match cut_at(line, b'#') {
        Some((front, _)) => trim(front),
        None => trim(line),
    }
}

// The time of what stands before and after its point.
fn time_of(whole: &[u8], fraction: &[u8]) -> Option<Stamp>
    ensures { stamp_of result ≡ around_point (cut whole.now fraction.now) }
{
    if fraction.len() != 6 {
        return None;
    }
    let seconds = u32::try_from(decimal(whole)?).ok()?;
    let microseconds = u32::try_from(decimal(fraction)?).ok()?;
    if 999999 < microseconds {
        return None;
    }
    Some(Stamp {
        seconds,
        microseconds,
    })
}

// The time that a text stands for.
fn time_in(s: &[u8]) -> Option<Stamp>
    ensures { stamp_of result ≡ stamp_in s.now }
{
    let (whole, fraction) = cut_at(s, b'.')?;
    time_of(whole, fraction)
}

// The record of a time and of a frame in hex.
fn framed(frame: &mut [u8], at: Stamp, hex: &[u8]) -> Result<Option<Said>, Fault>
    requires { length frame.old ≡ 4099 }
    ensures { said_of frame.new result ≡ record_of (time at.seconds at.microseconds) (bytes_in hex.now) }
{
    let len = decode(frame, hex)?;
    Ok(Some(Said { time: at, len }))
}

// The record that a line says; `None`: it says nothing. What stands before its first space is the time, and what follows it the frame.
pub(crate) fn record_in(frame: &mut [u8], line: &[u8]) -> Result<Option<Said>, Fault>
    requires { length frame.old ≡ 4099 }
    ensures { said_of frame.new result ≡ said_in line.now }
{
    let s = before_note(line);
    if s.is_empty() {
        return Ok(None);
    }
    let Some((stamp, hex)) = cut_at(s, b' ') else {
        time_in(s).ok_or(Fault::NoTime)?;
        return Err(Fault::NoFrame);
    };
    let time = time_in(stamp).ok_or(Fault::NoTime)?;
    framed(frame, time, hex)
}
