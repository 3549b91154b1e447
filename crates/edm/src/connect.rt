// The payload of a connect event.
ghost use Rattle.std.specs.Prelude.{◌≡◌};
ghost use Rattle.edm.specs.Packet.{shown};
ghost use Rattle.edm.specs.Payload.{read_connect};

use crate::{Channel, ConnectEventIPv4, EdmPacket, EdmPacketError};
use at::Text;

// The payload starts at place 5 of the frame.
#[tactic(auto, unfolding(crate::specs::Payload::read_connect))]
pub(crate) fn connect_event(t: &[u8]) -> Result<EdmPacket, EdmPacketError>
    ensures { shown result ≡ read_connect 5 t.now }
{
    let [channel, kind, ..] = t else {
        return Err(EdmPacketError::PacketDecodeTargetMemorySizeInvalid);
    };
    if *kind != 2 {
        return Err(EdmPacketError::ConnectEventUnsupported);
    }
    if t.len() != 15 {
        return Err(EdmPacketError::ConnectEventDecodeError);
    }
    Ok(EdmPacket::ConnectEvent {
        channel: Channel(*channel),
        event: ConnectEventIPv4 {
            protocol: t[2],
            remote_addr: Text { start: 8, len: 4 },
            remote_port: u16::from_be_bytes([t[7], t[8]]),
            local_addr: Text { start: 14, len: 4 },
            local_port: u16::from_be_bytes([t[13], t[14]]),
        },
    })
}
