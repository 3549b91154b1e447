// An EDM frame, read into a packet.
ghost use Rattle.std.specs.Prelude.{◌≡◌, ◌≤◌, length, drop};
ghost use Rattle.edm.specs.Packet.{shown, identifiers, carried};
ghost use Rattle.edm.specs.Payload.{read_payload};
ghost use Rattle.edm.specs.Frame.{read_frame};

use crate::connect::connect_event;
use crate::payload::{at_event, at_request, at_response, data_event, disconnect_event};
use crate::{EdmPacket, EdmPacketError};

#[tactic(auto, unfolding(crate::specs::Packet::identifiers, crate::specs::Packet::carried))]
// `s` is the frame without its last byte. Its payload starts at place 5.
fn payload_of(s: &[u8], identifier: u16) -> Result<EdmPacket, EdmPacketError>
    requires { 5 ≤ length s.now }
    ensures { shown result ≡ read_payload (carried identifiers identifier) 5 (drop 5 s.now) }
{
    let payload = &s[5..];
    match identifier {
        0x0011 => connect_event(payload),
        0x0021 => disconnect_event(payload),
        0x0031 | 0x0036 => data_event(payload),
        0x0044 => at_request(payload),
        0x0045 => at_response(s),
        0x0041 => at_event(s),
        0x0056 => Ok(EdmPacket::ResendConnectEvents),
        0x0071 => Ok(EdmPacket::StartEvent),
        _ => Err(EdmPacketError::PayloadTypeUnknown),
    }
}

#[tactic(auto, unfolding(crate::specs::Frame::read_frame))]
pub fn read(s: &[u8]) -> Result<EdmPacket, EdmPacketError>
    ensures { shown result ≡ read_frame s.now }
{
    let [0xAA, .., 0x55] = s else {
        return Err(EdmPacketError::PacketDecodeFramingInvalid);
    };
    let [_, length_high, length_low, id_high, id_low, payload @ .., _] = s else {
        return Err(EdmPacketError::PacketDecodeTargetMemorySizeInvalid);
    };
    // The top 4 bits of the length are reserved.
    let length = u16::from_be_bytes([*length_high, *length_low]) % 4096;
    if usize::from(length) != payload.len() + 2 {
        return Err(EdmPacketError::PacketTypeDecodeLengthMismatch);
    }
    payload_of(&s[..s.len() - 1], u16::from_be_bytes([*id_high, *id_low]))
}
