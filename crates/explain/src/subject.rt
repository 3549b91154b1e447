// What an input is read as, and what stands where in it.
use crate::event::{Event, FieldKind};
use crate::packet::Packet;
use lines::cut::cut_at;
use std::fmt;
use text::bytes::part;
use text::find::first_crlf;

// A text of the radio, alone or in a frame.
#[derive(Clone, Copy, PartialEq, Eq)]
pub(crate) enum TextKind {
    W26,
    W36,
    Binary,
    Response,
}

impl TextKind {
    // The argument that names it.
    pub(crate) fn word(self) -> &'static [u8] {
        match self {
            TextKind::W26 => b"w26",
            TextKind::W36 => b"w36",
            TextKind::Binary => b"binary",
            TextKind::Response => b"response",
        }
    }
}

#[derive(Clone, Copy, PartialEq, Eq)]
pub(crate) enum Kind {
    Frame,
    Text(TextKind),
}

impl fmt::Display for Kind {
    fn fmt<W: fmt::Write>(&self, f: &mut fmt::Formatter<W>) -> fmt::Result {
        f.write_str(match self {
            Kind::Frame => "EDM frame",
            Kind::Text(TextKind::W26) => "W26 event line",
            Kind::Text(TextKind::W36) => "W36 event line",
            Kind::Text(TextKind::Binary) => "W36 binary event",
            Kind::Text(TextKind::Response) => "AT response",
        })
    }
}

// An input and what it is read as. `packet` is the packet that a frame holds, `text` what is read as text: all, or the payload of a frame, if that
// is a line or a response. `end` is where the payload or the line ends, `text_end` where the fields of its event end.
#[derive(Clone, Copy)]
pub(crate) struct Subject<'a> {
    pub input: &'a [u8],
    pub kind: Kind,
    pub packet: Option<Packet>,
    pub text: Option<TextKind>,
    pub end: usize,
    pub text_end: usize,
    pub event: Option<Event>,
}

// Two bytes, high first; 0 where there are fewer.
pub(crate) fn word_at(s: &[u8], at: usize) -> u16 {
    match part(s, at, 2) {
        [high, low] => u16::from_be_bytes([*high, *low]),
        _ => 0,
    }
}

// What stands before a byte; all, where there is none.
pub(crate) fn up_to(s: &[u8], end: u8) -> &[u8] {
    cut_at(s, end).map_or(s, |(before, _)| before)
}

// Where the fields of an event end, in an input without what follows its line.
fn text_end_of(line: &[u8], text: Option<TextKind>) -> usize {
    let all = line.len();
    let n = all.saturating_sub(2);
    match text {
        Some(TextKind::W26) => n,
        Some(TextKind::W36) => first_crlf(part(line, 0, n), 2).unwrap_or(n),
        Some(TextKind::Binary) => up_to(line, 1).len(),
        Some(TextKind::Response) | None => all,
    }
}

// The event of a text, by its name and its type.
fn event_in(s: &[u8], text: Option<TextKind>) -> Option<Event> {
    let (name, fields) = cut_at(s, b':').unwrap_or((s, b""));
    match text {
        Some(TextKind::W26) => Event::w26(name, second_field(fields)),
        Some(TextKind::W36) | Some(TextKind::Binary) => Event::w36(name),
        Some(TextKind::Response) | None => None,
    }
}

fn second_field(fields: &[u8]) -> &[u8] {
    fields.split(|b| *b == b',').nth(1).unwrap_or(b"")
}

impl<'a> Subject<'a> {
    pub(crate) fn new(input: &'a [u8], kind: Kind) -> Subject<'a> {
        let packet = match kind {
            Kind::Frame => Packet::with_identifier(word_at(input, 3)),
            Kind::Text(_) => None,
        };
        let text = match kind {
            Kind::Frame => packet.and_then(Packet::text),
            Kind::Text(text) => Some(text),
        };
        let framing = usize::from(kind == Kind::Frame);
        let end = input.len().saturating_sub(framing);
        let text_end = text_end_of(part(input, 0, end), text);
        let mut subject = Subject {
            input,
            kind,
            packet,
            text,
            end,
            text_end,
            event: None,
        };
        subject.event = event_in(subject.event_text(), text);
        subject
    }

    fn is_frame(self) -> bool {
        self.kind == Kind::Frame
    }

    // The payload or the line.
    pub(crate) fn body(self) -> &'a [u8] {
        let start = if self.is_frame() { 5 } else { 0 };
        part(part(self.input, 0, self.end), start, self.end)
    }

    // What stands from the name of an event on, up to the end of its fields.
    fn event_text(self) -> &'a [u8] {
        let start = if self.is_frame() { 7 } else { 2 };
        part(part(self.input, 0, self.text_end), start, self.text_end)
    }

    // The name of its event.
    pub(crate) fn name(self) -> &'a [u8] {
        up_to(self.event_text(), b':')
    }

    // The bytes of a field of its event, counted from 1, which starts at a place. A comma ends it, but for the last field of a binary event.
    pub(crate) fn field_from(self, i: u8, at: usize) -> &'a [u8] {
        let rest = part(part(self.input, 0, self.text_end), at, self.text_end);
        if self.event.is_some_and(|event| event.is_before_marker(i)) {
            rest
        } else {
            up_to(rest, b',')
        }
    }

    // The kind of a field of its event, counted from 1, where there is one.
    pub(crate) fn kind_of(self, i: u8) -> Option<FieldKind> {
        self.event.and_then(|event| event.kind_of(i))
    }

    // The name of a field of its event in words, counted from 1; of the event itself with 0.
    pub(crate) fn words(self, i: u8) -> &'static str {
        self.event.map_or("", |event| event.words(usize::from(i)))
    }
}
