// EDM frames.
ghost use Rattle.std.specs.Prelude.{[], ◌∷◌, ◌++◌};
ghost use Rattle.text.specs.Bytes.{bytes};
ghost use Rattle.at.specs.Event.{num, at as placed};
ghost use Rattle.edm.specs.Packet.{packet_of, shown};
ghost use Rattle.render.specs.Print.{Prints};
ghost use Rattle.render.specs.Words.{values_line};
ghost use Rattle.render.specs.Frame.{packet_line, frame_line};

use crate::event::RadioEvent;
use crate::field::{named_text, number_after, text_after};
use crate::refusal::Refusal;
use crate::response::response;
use crate::word::word;
use at::Text;
use edm::{Channel, ConnectEventIPv4, EdmPacket, EdmPacketError};

fn with_data(buf: &mut [u8], at: usize, src: &[u8], name: &[u8], channel: Channel, t: Text) -> usize
    ensures { Prints buf.old at (name.now ++ values_line [] src.now (num channel.0 ∷ placed t ∷ [])) result buf.new }
{
    let at = word(buf, at, name);
    let at = number_after(buf, at, channel.0 as u64);
    text_after(buf, at, src, t)
}

// The channel, the protocol, then both ends, the remote one first.
fn connect(buf: &mut [u8], at: usize, src: &[u8], channel: Channel, c: ConnectEventIPv4) -> usize
    ensures { Prints buf.old at (bytes "ConnectEvent" ++ values_line [] src.now (num channel.0 ∷ []) ++ (bytes " ConnectEventIPv4" ++ values_line [] src.now (num c.protocol ∷ placed c.remote_addr ∷ num c.remote_port ∷ placed c.local_addr ∷ num c.local_port ∷ []))) result buf.new }
{
    let at = word(buf, at, b"ConnectEvent");
    let at = number_after(buf, at, channel.0 as u64);
    let at = word(buf, at, b" ConnectEventIPv4");
    let at = number_after(buf, at, c.protocol as u64);
    let at = text_after(buf, at, src, c.remote_addr);
    let at = number_after(buf, at, c.remote_port as u64);
    let at = text_after(buf, at, src, c.local_addr);
    number_after(buf, at, c.local_port as u64)
}

fn packet(buf: &mut [u8], at: usize, src: &[u8], p: EdmPacket) -> usize
    ensures { Prints buf.old at (packet_line src.now (packet_of p)) result buf.new }
{
    match p {
        EdmPacket::ConnectEvent { channel, event } => connect(buf, at, src, channel, event),
        EdmPacket::DisconnectEvent { channel } => {
            let at = word(buf, at, b"DisconnectEvent");
            number_after(buf, at, channel.0 as u64)
        }
        EdmPacket::DataEvent { channel, data } => with_data(
            buf,
            at,
            src,
            b"DataEvent",
            channel,
            data,
        ),
        EdmPacket::DataCommand { channel, data } => with_data(
            buf,
            at,
            src,
            b"DataCommand",
            channel,
            data,
        ),
        EdmPacket::ATRequest(t) => named_text(buf, at, src, b"ATRequest", t),
        EdmPacket::ATResponse(a) => {
            let at = word(buf, at, b"ATResponse ");
            response(buf, at, src, a)
        }
        EdmPacket::ATEvent(e) => {
            let at = word(buf, at, b"ATEvent ");
            e.print(buf, at, src)
        }
        EdmPacket::ResendConnectEvents => word(buf, at, b"ResendConnectEvents"),
        EdmPacket::StartEvent => word(buf, at, b"StartEvent"),
    }
}

pub fn answer(buf: &mut [u8], at: usize, src: &[u8], a: Result<EdmPacket, EdmPacketError>) -> usize
    ensures { Prints buf.old at (frame_line src.now (shown a)) result buf.new }
{
    match a {
        Ok(p) => packet(buf, at, src, p),
        Err(e) => e.print(buf, at),
    }
}
