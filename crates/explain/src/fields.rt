// The fields of an accepted input: where each stands, what it is and what it says.
ghost use Rattle.std.specs.Prelude.{◌-◌};
ghost use Rattle.std.specs.Iterator.{at_most};

use crate::event::FieldKind;
use crate::found::frame_length;
use crate::show::{Counted, Hex, Quoted};
use crate::subject::{Subject, word_at};
use checks::part::{PartName, PartStep, PartWalk};
use std::fmt;
use std::fmt::Formatter;
use text::bytes::part;
use text::number::read;

// So many columns of a text fit into the last column.
const COLUMNS: usize = 60;

// No input has so many fields.
const MOST: u8 = 32;

// The fields of an input with their numbers, counted from 1.
#[derive(Clone, Copy)]
pub(crate) struct Numbered<'a> {
    input: &'a [u8],
    walk: PartWalk,
    number: u8,
}

impl<'a> Numbered<'a> {
    pub(crate) fn new(input: &'a [u8], walk: PartWalk) -> Numbered<'a> {
        Numbered {
            input,
            walk,
            number: 1,
        }
    }
}

impl<'a> Iterator for Numbered<'a> {
    type Item = (u8, PartStep);

    ghost remaining = { λ s. at_most (32 - s.number) };

    fn next(&mut self) -> Option<(u8, PartStep)> {
        let number = self.number;
        if MOST <= number {
            return None;
        }
        let step = self.walk.next(self.input)?;
        self.walk = step.rest;
        self.number = number + 1;
        Some((number, step))
    }
}

// A row of the table of fields, with the field's number.
#[derive(Clone, Copy)]
pub(crate) struct Row<'a> {
    pub number: u8,
    pub start: usize,
    pub len: usize,
    pub name: &'static str,
    pub meaning: Meaning<'a>,
}

impl<'a> Row<'a> {
    pub(crate) fn new(number: u8, step: PartStep, subject: Subject<'a>) -> Row<'a> {
        Row {
            number,
            start: step.start,
            len: step.len,
            name: name_of(step.name, subject),
            meaning: Meaning {
                field: part(subject.input, step.start, step.len),
                name: step.name,
                subject,
            },
        }
    }
}

fn name_of(name: PartName, x: Subject) -> &'static str {
    match name {
        PartName::StartByte => "start byte",
        PartName::Length => "length",
        PartName::Identifier => "identifier",
        PartName::Channel => "channel",
        PartName::ConnectType => "type",
        PartName::Protocol => "protocol",
        PartName::RemoteAddress => "remote address",
        PartName::RemotePort => "remote port",
        PartName::LocalAddress => "local address",
        PartName::LocalPort => "local port",
        PartName::Data => "data",
        PartName::Text => "text",
        PartName::Name => "name",
        PartName::Field(i) => x.words(i),
        PartName::Marker => "marker",
        PartName::DataLength => "data length",
        PartName::EndByte => "end byte",
    }
}

// What a field of an input says.
#[derive(Clone, Copy)]
pub(crate) struct Meaning<'a> {
    field: &'a [u8],
    name: PartName,
    subject: Subject<'a>,
}

// The number in one byte, or in two, high first.
fn value(s: &[u8]) -> usize {
    match s {
        [b] => usize::from(*b),
        _ => usize::from(word_at(s, 0)),
    }
}

fn protocol_name(n: u32) -> &'static str {
    match n {
        1 => "TCP",
        2 => "UDP",
        _ => "MQTT",
    }
}

fn reason_name(n: u32) -> &'static str {
    match n {
        1 => "remote close",
        2 => "out of range",
        3 => "roaming",
        4 => "security problems",
        5 => "network disabled",
        _ => "unknown",
    }
}

fn peer_type_name(n: u32) -> &'static str {
    match n {
        2 => "IPv4",
        3 => "IPv6",
        _ => "Bluetooth",
    }
}

// What a field of an event says, by its kind.
fn write_field<W: fmt::Write>(
    f: &mut Formatter<W>,
    text: &[u8],
    kind: Option<FieldKind>,
) -> fmt::Result {
    let columns = COLUMNS;
    let n = read::<u32>(text).unwrap_or(0);
    match kind {
        Some(FieldKind::Text) => write!(f, "{}", Quoted { text, columns }),
        Some(FieldKind::Byte) | Some(FieldKind::Word) | Some(FieldKind::Long) => write!(f, "{n}"),
        Some(FieldKind::Protocol) => f.write_str(protocol_name(n)),
        Some(FieldKind::Reason) => f.write_str(reason_name(n)),
        Some(FieldKind::PeerType) | None => f.write_str(peer_type_name(n)),
    }
}

fn write_packet<W: fmt::Write>(f: &mut Formatter<W>, x: Subject) -> fmt::Result {
    match x.packet {
        Some(packet) => write!(f, "{packet}"),
        None => Ok(()),
    }
}

impl<'a> fmt::Display for Meaning<'a> {
    fn fmt<W: fmt::Write>(&self, f: &mut Formatter<W>) -> fmt::Result {
        let text = self.field;
        let x = self.subject;
        let columns = COLUMNS;
        match self.name {
            PartName::StartByte | PartName::EndByte => write!(f, "{}", Hex(text)),
            PartName::Length => {
                let n = usize::from(frame_length(x.input));
                write!(f, "{}, identifier and payload", Counted { n, of: "byte" })
            }
            PartName::Identifier => write_packet(f, x),
            PartName::Channel | PartName::Protocol | PartName::RemotePort | PartName::LocalPort =>
                write!(f, "{}", value(text)),
            PartName::ConnectType => f.write_str("IPv4"),
            PartName::RemoteAddress | PartName::LocalAddress => f.write_joined(text.iter(), "."),
            PartName::Data | PartName::Text => write!(f, "{}", Quoted { text, columns }),
            PartName::Name => f.write_str(x.words(0)),
            PartName::Field(i) => write_field(f, text, x.kind_of(i)),
            PartName::Marker => f.write_str("the data follows"),
            PartName::DataLength => {
                let n = value(text);
                write!(f, "{}", Counted { n, of: "byte" })
            }
        }
    }
}
