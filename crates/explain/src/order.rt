// The checks in document 01's order.
use crate::event::FieldKind;
use crate::packet::Packet;
use crate::subject::{Kind, Subject, TextKind};
use checks::CheckName;

// The field that a check is about, counted from 1, if it is about one.
pub(crate) fn field_of(check: CheckName) -> Option<u8> {
    match check {
        CheckName::FieldThere(i)
        | CheckName::FieldEmpty(i)
        | CheckName::FieldByte(i)
        | CheckName::FieldLarge(i)
        | CheckName::FieldListed(i)
        | CheckName::FieldType(i) => Some(i),
        _ => None,
    }
}

pub(crate) fn first_check(x: Subject) -> CheckName {
    match x.kind {
        Kind::Frame => CheckName::FrameOfTwo,
        Kind::Text(TextKind::Binary) => CheckName::Marker,
        Kind::Text(_) => CheckName::Utf8,
    }
}

// The first check of a payload.
fn first_of_payload(packet: Packet) -> Option<CheckName> {
    match packet {
        Packet::Connect => Some(CheckName::ConnectOfTwo),
        Packet::Disconnect => Some(CheckName::DisconnectSize),
        Packet::Data | Packet::DataCommand => Some(CheckName::DataChannel),
        Packet::Event | Packet::Response => Some(CheckName::Utf8),
        Packet::Request => Some(CheckName::RequestUtf8),
        Packet::Resend | Packet::Start => None,
    }
}

fn after_utf8(text: Option<TextKind>) -> CheckName {
    match text {
        Some(TextKind::Response) => CheckName::FirstLineEnd,
        Some(TextKind::Binary) => CheckName::FieldThere(1),
        Some(TextKind::W26) | Some(TextKind::W36) | None => CheckName::LineOfTwo,
    }
}

// The first check of a field, or what follows the last one: of a binary event its data, and else nothing.
fn at_field(i: u8, x: Subject) -> Option<CheckName> {
    if x.kind_of(i).is_some() {
        return Some(CheckName::FieldThere(i));
    }
    (x.text == Some(TextKind::Binary)).then_some(CheckName::LengthBytes)
}

fn after_field(i: u8, x: Subject) -> Option<CheckName> {
    at_field(i.checked_add(1)?, x)
}

fn after_there(i: u8, x: Subject) -> Option<CheckName> {
    match x.kind_of(i) {
        Some(FieldKind::Text) => after_field(i, x),
        Some(FieldKind::PeerType) => Some(CheckName::FieldType(i)),
        _ => Some(CheckName::FieldEmpty(i)),
    }
}

// Protocol and reason have a list.
fn after_large(i: u8, x: Subject) -> Option<CheckName> {
    match x.kind_of(i) {
        Some(FieldKind::Protocol) | Some(FieldKind::Reason) => Some(CheckName::FieldListed(i)),
        _ => after_field(i, x),
    }
}

// The check after another, if there is one.
pub(crate) fn next_check(check: CheckName, x: Subject) -> Option<CheckName> {
    match check {
        CheckName::FrameOfTwo => Some(CheckName::StartByte),
        CheckName::StartByte => Some(CheckName::EndByte),
        CheckName::EndByte => Some(CheckName::FrameOfSix),
        CheckName::FrameOfSix => Some(CheckName::FrameLength),
        CheckName::FrameLength => Some(CheckName::Identifier),
        CheckName::Identifier => x.packet.and_then(first_of_payload),
        CheckName::ConnectOfTwo => Some(CheckName::ConnectType),
        CheckName::ConnectType => Some(CheckName::ConnectSize),
        CheckName::Utf8 => Some(after_utf8(x.text)),
        CheckName::LineOfTwo => Some(CheckName::PlaceTwo),
        CheckName::PlaceTwo => Some(CheckName::LineEnd),
        CheckName::LineEnd => Some(CheckName::EventName),
        CheckName::EventName => at_field(1, x),
        CheckName::FieldThere(i) => after_there(i, x),
        CheckName::FieldEmpty(i) => Some(CheckName::FieldByte(i)),
        CheckName::FieldByte(i) => Some(CheckName::FieldLarge(i)),
        CheckName::FieldLarge(i) => after_large(i, x),
        CheckName::FieldListed(i) | CheckName::FieldType(i) => after_field(i, x),
        CheckName::FirstLineEnd => Some(CheckName::LastLineEnd),
        CheckName::Marker => Some(CheckName::Utf8),
        CheckName::LengthBytes => Some(CheckName::DataBytes),
        CheckName::ConnectSize
        | CheckName::DisconnectSize
        | CheckName::DataChannel
        | CheckName::RequestUtf8
        | CheckName::LastLineEnd
        | CheckName::DataBytes => None,
    }
}
