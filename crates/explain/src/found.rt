// What stands in the input in place of what a check requires.
use crate::show::{Counted, Hex, Quoted};
use crate::subject::{Subject, word_at};
use checks::CheckName;
use lines::cut::cut_at;
use std::fmt;
use std::fmt::Formatter;
use text::bytes::part;
use text::find::first_crlf;

// So many columns of a text fit into a sentence.
const COLUMNS: usize = 24;

// The end of the sentence on a check that does not hold, and the byte that shows it.
#[derive(Clone, Copy)]
pub(crate) struct Instead<'a> {
    pub subject: Subject<'a>,
    pub check: CheckName,
    pub byte: usize,
}

fn has<W: fmt::Write>(f: &mut Formatter<W>, n: usize) -> fmt::Result {
    write!(f, "; this one has {n}")
}

fn is_bytes<W: fmt::Write>(f: &mut Formatter<W>, s: &[u8]) -> fmt::Result {
    write!(f, "; this one is {}", Hex(s))
}

fn is_text<W: fmt::Write>(f: &mut Formatter<W>, text: &[u8]) -> fmt::Result {
    let columns = COLUMNS;
    write!(f, "; this one is {}", Quoted { text, columns })
}

// The low 12 bits of the length field count.
pub(crate) fn frame_length(s: &[u8]) -> u16 {
    word_at(s, 1) % 4096
}

fn frame_says<W: fmt::Write>(f: &mut Formatter<W>, s: &[u8]) -> fmt::Result {
    let said = frame_length(s);
    let there = s.len().saturating_sub(4);
    write!(f, "; it says {said}, they have {there}")
}

// What follows the first byte 01: the length of the data of a binary event, and the data.
fn after_marker(s: &[u8]) -> &[u8] {
    cut_at(s, 1).map_or(b"", |(_, after)| after)
}

fn data_says<W: fmt::Write>(f: &mut Formatter<W>, s: &[u8]) -> fmt::Result {
    let after = after_marker(s);
    let said = word_at(after, 0);
    let there = after.len().saturating_sub(2);
    write!(f, "; it says {said}, there are {there}")
}

fn no_character<W: fmt::Write>(f: &mut Formatter<W>, s: &[u8], byte: usize) -> fmt::Result {
    let wrong = Hex(part(s, byte, 1));
    write!(f, "; byte {byte} ({wrong}) begins no whole character")
}

// The last two bytes of what should end in CR LF.
fn ends<W: fmt::Write>(f: &mut Formatter<W>, rest: &[u8]) -> fmt::Result {
    if rest.is_empty() {
        return f.write_str("; nothing follows");
    }
    f.write_str("; this ends in")?;
    for b in part(rest, rest.len().saturating_sub(2), 2) {
        write!(f, " {b:02X}")?;
    }
    Ok(())
}

fn after_first_line_end(t: &[u8]) -> &[u8] {
    match first_crlf(t, 0) {
        Some(i) => part(part(t, i, t.len()), 2, t.len()),
        None => b"",
    }
}

fn fields_there<W: fmt::Write>(f: &mut Formatter<W>, i: u8) -> fmt::Result {
    let n = usize::from(i.saturating_sub(1));
    write!(f, "; this event has {}", Counted { n, of: "field" })
}

impl<'a> fmt::Display for Instead<'a> {
    fn fmt<W: fmt::Write>(&self, f: &mut Formatter<W>) -> fmt::Result {
        let x = self.subject;
        let s = x.input;
        let byte = self.byte;
        let body = x.body();
        match self.check {
            CheckName::FrameOfTwo | CheckName::FrameOfSix => has(f, s.len()),
            CheckName::ConnectOfTwo
            | CheckName::DisconnectSize
            | CheckName::DataChannel
            | CheckName::LineOfTwo => has(f, body.len()),
            CheckName::ConnectSize => has(f, body.len().saturating_sub(2)),
            CheckName::StartByte | CheckName::EndByte | CheckName::ConnectType => {
                is_bytes(f, part(s, byte, 1))
            }
            CheckName::Identifier => is_bytes(f, part(s, byte, 2)),
            CheckName::FrameLength => frame_says(f, s),
            CheckName::RequestUtf8 | CheckName::Utf8 => no_character(f, s, byte),
            CheckName::PlaceTwo => f.write_str("; here a character goes on after them"),
            CheckName::LineEnd => ends(f, part(body, 2, body.len())),
            CheckName::LastLineEnd => ends(f, after_first_line_end(body)),
            CheckName::EventName => is_text(f, x.name()),
            CheckName::FieldThere(i) => fields_there(f, i),
            CheckName::FieldEmpty(i)
            | CheckName::FieldByte(i)
            | CheckName::FieldLarge(i)
            | CheckName::FieldListed(i)
            | CheckName::FieldType(i) => is_text(f, x.field_from(i, byte)),
            CheckName::FirstLineEnd | CheckName::Marker => f.write_str("; this one has none"),
            CheckName::LengthBytes => has(f, after_marker(s).len()),
            CheckName::DataBytes => data_says(f, s),
        }
    }
}
