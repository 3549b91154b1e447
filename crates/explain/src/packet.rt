// The packets that frames hold.
use crate::subject::TextKind;
use std::fmt;

#[derive(Clone, Copy, PartialEq, Eq)]
pub(crate) enum Packet {
    Connect,
    Disconnect,
    Data,
    DataCommand,
    Event,
    Request,
    Response,
    Resend,
    Start,
}

impl Packet {
    pub(crate) fn with_identifier(identifier: u16) -> Option<Packet> {
        match identifier {
            0x0011 => Some(Packet::Connect),
            0x0021 => Some(Packet::Disconnect),
            0x0031 => Some(Packet::Data),
            0x0036 => Some(Packet::DataCommand),
            0x0041 => Some(Packet::Event),
            0x0044 => Some(Packet::Request),
            0x0045 => Some(Packet::Response),
            0x0056 => Some(Packet::Resend),
            0x0071 => Some(Packet::Start),
            _ => None,
        }
    }

    // What its payload is read as, if that is a line or a response.
    pub(crate) fn text(self) -> Option<TextKind> {
        match self {
            Packet::Event => Some(TextKind::W26),
            Packet::Response => Some(TextKind::Response),
            _ => None,
        }
    }

    pub(crate) fn is_payload_ignored(self) -> bool {
        matches!(self, Packet::Resend | Packet::Start)
    }
}

impl fmt::Display for Packet {
    fn fmt<W: fmt::Write>(&self, f: &mut fmt::Formatter<W>) -> fmt::Result {
        f.write_str(match self {
            Packet::Connect => "connect event",
            Packet::Disconnect => "disconnect event",
            Packet::Data => "data event",
            Packet::DataCommand => "data command, read as a data event",
            Packet::Event => "AT event of W26",
            Packet::Request => "AT request",
            Packet::Response => "AT response",
            Packet::Resend => "command to send the connect events again",
            Packet::Start => "start event",
        })
    }
}
