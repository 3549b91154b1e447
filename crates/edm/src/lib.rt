// EDM frames, read and written. Every place in an answer counts from the start of the frame.
#![tactic(auto)]

pub mod command;
mod connect;
pub mod frame;
mod payload;

ghost use Rattle.std.specs.Prelude.{◌≡◌};
ghost use Rattle.edm.specs.declared.EdmPacketError.TheVariants as of;
ghost use Rattle.edm.specs.Refusal.{refusal_no};

use at::response::ATResponse;
use at::w26::ATEvent;
use at::{AtPacketError, Text};

#[derive(Clone, Copy)]
pub enum EdmPacketError {
    PacketDecodeFramingInvalid,
    PacketDecodeTargetMemorySizeInvalid,
    PacketTypeDecodeLengthMismatch,
    PayloadTypeUnknown,
    ConnectEventUnsupported,
    ConnectEventDecodeError,
    DisconnectEventDecodeError,
    AtRequestEventDecodeError,
    PacketEncodeTypeUnknown,
    PacketEncodePayloadSizeInvalid,
    AtPacketError(AtPacketError),
}

impl From<AtPacketError> for EdmPacketError {
    ghost from_gives = { λ e r. r ≡ of.AtPacketError e };

    fn from(e: AtPacketError) -> EdmPacketError {
        EdmPacketError::AtPacketError(e)
    }
}

// The number of a refusal.
impl From<EdmPacketError> for u8 {
    ghost from_gives = { λ e n. n ≡ refusal_no e };

    fn from(e: EdmPacketError) -> u8 {
        match e {
            EdmPacketError::PacketDecodeFramingInvalid => 1,
            EdmPacketError::PacketDecodeTargetMemorySizeInvalid => 2,
            EdmPacketError::PacketTypeDecodeLengthMismatch => 3,
            EdmPacketError::PayloadTypeUnknown => 4,
            EdmPacketError::ConnectEventUnsupported => 5,
            EdmPacketError::ConnectEventDecodeError => 6,
            EdmPacketError::DisconnectEventDecodeError => 7,
            EdmPacketError::AtRequestEventDecodeError => 8,
            EdmPacketError::PacketEncodeTypeUnknown => 9,
            EdmPacketError::PacketEncodePayloadSizeInvalid => 10,
            EdmPacketError::AtPacketError(a) => u8::from(a),
        }
    }
}

// A channel is counted separately from peer handles and sockets.
#[derive(Clone, Copy)]
pub struct Channel(pub u8);

// The remote end stands first, as in the frame. An address is a place of 4 bytes.
#[derive(Clone, Copy)]
pub struct ConnectEventIPv4 {
    pub protocol: u8,
    pub remote_addr: Text,
    pub remote_port: u16,
    pub local_addr: Text,
    pub local_port: u16,
}

// Text and data are places in the frame, or in the source of a write, since document 01 has no reference in an enum.
#[derive(Clone, Copy)]
pub enum EdmPacket {
    ConnectEvent {
        channel: Channel,
        event: ConnectEventIPv4,
    },
    DisconnectEvent {
        channel: Channel,
    },
    DataEvent {
        channel: Channel,
        data: Text,
    },
    DataCommand {
        channel: Channel,
        data: Text,
    },
    ATRequest(Text),
    ATResponse(ATResponse),
    ATEvent(ATEvent),
    ResendConnectEvents,
    StartEvent,
}
