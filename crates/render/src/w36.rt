// W36 events, in text and in binary.
ghost use Rattle.std.specs.Prelude.{◌≡◌};
ghost use Rattle.at.specs.W36.{event_of, shown_binary};
ghost use Rattle.at.specs.Walk as walk;
ghost use Rattle.render.specs.Walk.{tried_line, step_line};
ghost use Rattle.render.specs.Print.{Prints};
ghost use Rattle.render.specs.Event.{cases36};
ghost use Rattle.render.specs.Steps.{case_word};

use crate::event::{RadioEvent, fields};
use crate::refusal::{Refusal, refused_at};
use crate::word::{place_after, word};
use at::parts::Parts;
use at::w36::{ATEvent, rows};
use at::walk::{EventRefused, EventStep};
use at::{AtPacketError, ReadEvent};

#[tactic(auto, unfolding(crate::specs::Event::cases36, crate::specs::Event::case_of, text::specs::Bytes::same))]
fn case_name(e: ATEvent) -> &'static [u8]
    ensures { result.now ≡ case_word cases36 (event_of e) }
{
    match e {
        ATEvent::SocketConnected { .. } => b"SocketConnected",
        ATEvent::SocketClosed { .. } => b"SocketClosed",
        ATEvent::SocketDataAvailable { .. } => b"SocketDataAvailable",
        ATEvent::WifiLinkUp { .. } => b"WifiLinkUp",
        ATEvent::WifiLinkDown { .. } => b"WifiLinkDown",
        ATEvent::WifiAccessPointStationAssociated { .. } => b"WifiAccessPointStationAssociated",
        ATEvent::WifiAccessPointStationDisassociated { .. } =>
            b"WifiAccessPointStationDisassociated",
        ATEvent::WifiAccessPointUp => b"WifiAccessPointUp",
        ATEvent::WifiAccessPointDown => b"WifiAccessPointDown",
        ATEvent::StationNetworkUp => b"StationNetworkUp",
        ATEvent::StationNetworkDown => b"StationNetworkDown",
        ATEvent::AccessPointNetworkUp => b"AccessPointNetworkUp",
        ATEvent::AccessPointNetworkDown => b"AccessPointNetworkDown",
        ATEvent::SocketDataBinary { .. } => b"SocketDataBinary",
        ATEvent::SocketDataBinaryFrom { .. } => b"SocketDataBinaryFrom",
    }
}

impl RadioEvent for ATEvent {
    ghost cases = { cases36 };

    ghost says = { event_of };

    fn print(self, buf: &mut [u8], at: usize, src: &[u8]) -> usize {
        let at = word(buf, at, case_name(self));
        fields(buf, at, src, rows(), Parts::from(self))
    }
}

pub fn binary_answer(
    buf: &mut [u8],
    at: usize,
    src: &[u8],
    a: Result<Option<ReadEvent<ATEvent>>, AtPacketError>,
) -> usize
    ensures { Prints buf.old at (tried_line src.now (shown_binary a)) result buf.new }
{
    match a {
        Ok(Some(r)) => r.event.print(buf, at, src),
        Ok(None) => word(buf, at, b"notbinary"),
        Err(e) => e.print(buf, at),
    }
}

// A step of a walk: an event with the place just past it, the end, or a refusal with the place where the refused event begins.
pub fn step(
    buf: &mut [u8],
    at: usize,
    src: &[u8],
    s: Result<Option<EventStep>, EventRefused>,
) -> usize
    ensures { Prints buf.old at (step_line src.now (walk.shown s)) result buf.new }
{
    match s {
        Ok(Some(x)) => {
            let at = x.event.print(buf, at, src);
            place_after(buf, at, x.rest.at)
        }
        Ok(None) => word(buf, at, b"end"),
        Err(r) => refused_at(buf, at, r.error, r.at),
    }
}
