// The payloads of a frame, which start at its place 5. Those of the AT layer are read in the frame without its last byte, as `s`, and the others
// are lent as `t`.
ghost use Rattle.std.specs.Prelude.{◌≡◌, drop};
ghost use Rattle.at.specs.Line.{read_line};
ghost use Rattle.at.specs.Response.{read_response};
ghost use Rattle.at.specs.W26.{w26};
ghost use Rattle.edm.specs.Packet.{shown};
ghost use Rattle.edm.specs.Payload.{read_disconnect, read_data_event, read_request, of_response, of_event};

use crate::{Channel, EdmPacket, EdmPacketError};
use at::Text;
use text::utf8::is_utf8;

#[tactic(auto, unfolding(crate::specs::Payload::read_disconnect))]
pub(crate) fn disconnect_event(t: &[u8]) -> Result<EdmPacket, EdmPacketError>
    ensures { shown result ≡ read_disconnect 5 t.now }
{
    let [channel] = t else {
        return Err(EdmPacketError::DisconnectEventDecodeError);
    };
    Ok(EdmPacket::DisconnectEvent {
        channel: Channel(*channel),
    })
}

#[tactic(auto, unfolding(crate::specs::Payload::read_data_event))]
pub(crate) fn data_event(t: &[u8]) -> Result<EdmPacket, EdmPacketError>
    ensures { shown result ≡ read_data_event 5 t.now }
{
    let [channel, data @ ..] = t else {
        return Err(EdmPacketError::PacketDecodeTargetMemorySizeInvalid);
    };
    Ok(EdmPacket::DataEvent {
        channel: Channel(*channel),
        data: Text {
            start: 6,
            len: data.len(),
        },
    })
}

#[tactic(auto, unfolding(crate::specs::Payload::read_request))]
pub(crate) fn at_request(t: &[u8]) -> Result<EdmPacket, EdmPacketError>
    ensures { shown result ≡ read_request 5 t.now }
{
    if !is_utf8(t) {
        return Err(EdmPacketError::AtRequestEventDecodeError);
    }
    Ok(EdmPacket::ATRequest(Text {
        start: 5,
        len: t.len(),
    }))
}

// Document 01 binds `let .. else` on the answers of the AT layer, so a `?` does not stand here or in the next function.
pub(crate) fn at_response(s: &[u8]) -> Result<EdmPacket, EdmPacketError>
    ensures { shown result ≡ of_response (read_response 5 (drop 5 s.now)) }
{
    let answer = at::response::read(s, 5);
    let Ok(response) = answer else {
        return Err(EdmPacketError::from(answer.unwrap_err()));
    };
    Ok(EdmPacket::ATResponse(response))
}

pub(crate) fn at_event(s: &[u8]) -> Result<EdmPacket, EdmPacketError>
    ensures { shown result ≡ of_event (read_line w26 5 (drop 5 s.now)) }
{
    let answer = at::w26::read(s, 5);
    let Ok(read) = answer else {
        return Err(EdmPacketError::from(answer.unwrap_err()));
    };
    Ok(EdmPacket::ATEvent(read.event))
}
