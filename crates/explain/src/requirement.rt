// What each check requires, in words.
use crate::event::FieldKind;
use crate::order::field_of;
use crate::subject::{Subject, TextKind};
use checks::CheckName;
use std::fmt;

// A check of an input. Without its lead it leaves out the field that it is about.
#[derive(Clone, Copy)]
pub(crate) struct Requirement<'a> {
    pub check: CheckName,
    pub subject: Subject<'a>,
}

#[derive(Clone, Copy)]
pub(crate) struct BareRequirement<'a>(pub Requirement<'a>);

// The words of each check. What they end in may differ by the input.
fn words_of(check: CheckName) -> &'static str {
    match check {
        CheckName::FrameOfTwo => "a frame has at least 2 bytes",
        CheckName::StartByte => "the first byte of a frame is AA",
        CheckName::EndByte => "the last byte of a frame is 55",
        CheckName::FrameOfSix => "a frame has at least 6 bytes",
        CheckName::FrameLength =>
            "the length field says how many bytes identifier and payload have",
        CheckName::Identifier => {
            "the identifier is 0011, 0021, 0031, 0036, 0041, 0044, 0045, 0056 or 0071"
        }
        CheckName::ConnectOfTwo => "the payload of a connect event has at least 2 bytes",
        CheckName::ConnectType => "the type of a connect event is 02 (IPv4)",
        CheckName::ConnectSize => "an IPv4 connect event has exactly 13 bytes after its type",
        CheckName::DisconnectSize => "the payload of a disconnect event is exactly 1 byte",
        CheckName::DataChannel => {
            "the payload of a data event or data command has at least 1 byte, the channel"
        }
        CheckName::RequestUtf8 => "the text of an AT request is UTF-8",
        CheckName::Utf8 => " is UTF-8",
        CheckName::LineOfTwo => "an event line has at least 2 bytes",
        CheckName::PlaceTwo => "the first 2 bytes of an event line are whole characters",
        CheckName::LineEnd => "what follows the first 2 bytes of an event line ends in CR LF",
        CheckName::EventName => "the name is in the list of ",
        CheckName::FieldThere(_) => "there",
        CheckName::FieldEmpty(_) => "not empty",
        CheckName::FieldByte(_) => "digits or + and digits",
        CheckName::FieldLarge(_) => "at most ",
        CheckName::FieldListed(_) => "one of ",
        CheckName::FieldType(_) => "exactly 1, 2 or 3",
        CheckName::FirstLineEnd => "a response has a CR LF",
        CheckName::LastLineEnd => "what follows the first CR LF of a response ends in CR LF",
        CheckName::Marker => "a byte 01 follows the fields of a binary event",
        CheckName::LengthBytes => "2 length bytes follow the byte 01",
        CheckName::DataBytes => "as many data bytes follow the length as it says",
    }
}

// What the words of a check end in: of a name the radio, of a number its limit or its list.
fn end_of(check: CheckName, x: Subject) -> &'static str {
    match check {
        CheckName::EventName if x.text == Some(TextKind::W26) => "W26 events",
        CheckName::EventName => "W36 events",
        CheckName::FieldLarge(i) => match x.kind_of(i) {
            Some(FieldKind::Word) => "65,535",
            Some(FieldKind::Long) => "4,294,967,295",
            _ => "255",
        },
        CheckName::FieldListed(i) => match x.kind_of(i) {
            Some(FieldKind::Protocol) => "1, 2 and 6",
            _ => "0, 1, 2, 3, 4 and 5",
        },
        _ => "",
    }
}

impl<'a> fmt::Display for BareRequirement<'a> {
    fn fmt<W: fmt::Write>(&self, f: &mut fmt::Formatter<W>) -> fmt::Result {
        let Requirement { check, subject } = self.0;
        f.write_str(words_of(check))?;
        f.write_str(end_of(check, subject))
    }
}

// The text that is to be UTF-8.
fn text_words(text: Option<TextKind>) -> &'static str {
    match text {
        Some(TextKind::W26) | Some(TextKind::W36) => "an event line",
        Some(TextKind::Binary) => "the text before the first byte 01",
        Some(TextKind::Response) => "a response",
        None => "",
    }
}

impl<'a> Requirement<'a> {
    // What stands before the words: of a field its number and its name, of UTF-8 the text that is meant.
    fn write_lead<W: fmt::Write>(self, f: &mut fmt::Formatter<W>) -> fmt::Result {
        let x = self.subject;
        match self.check {
            CheckName::Utf8 => f.write_str(text_words(x.text)),
            check => match field_of(check) {
                Some(i) => write!(f, "field {i} ({}) is ", x.words(i)),
                None => Ok(()),
            },
        }
    }
}

impl<'a> fmt::Display for Requirement<'a> {
    fn fmt<W: fmt::Write>(&self, f: &mut fmt::Formatter<W>) -> fmt::Result {
        self.write_lead(f)?;
        BareRequirement(*self).fmt(f)
    }
}
