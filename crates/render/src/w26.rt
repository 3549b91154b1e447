// W26 events.
ghost use Rattle.std.specs.Prelude.{◌≡◌};
ghost use Rattle.at.specs.W26.{event_of};
ghost use Rattle.render.specs.Event.{cases26};
ghost use Rattle.render.specs.Steps.{case_word};

use crate::event::{RadioEvent, fields};
use crate::word::word;
use at::parts::Parts;
use at::w26::{ATEvent, rows};

#[tactic(auto, unfolding(crate::specs::Event::cases26, crate::specs::Event::case_of, text::specs::Bytes::same))]
fn case_name(e: ATEvent) -> &'static [u8]
    ensures { result.now ≡ case_word cases26 (event_of e) }
{
    match e {
        ATEvent::PeerConnectedIP { .. } => b"PeerConnectedIP",
        ATEvent::PeerDisconnected { .. } => b"PeerDisconnected",
        ATEvent::WifiLinkConnected { .. } => b"WifiLinkConnected",
        ATEvent::WifiLinkDisconnected { .. } => b"WifiLinkDisconnected",
        ATEvent::WifiAccessPointUp { .. } => b"WifiAccessPointUp",
        ATEvent::WifiAccessPointDown { .. } => b"WifiAccessPointDown",
        ATEvent::WifiAccessPointStationConnected { .. } => b"WifiAccessPointStationConnected",
        ATEvent::WifiAccessPointStationDisconnected { .. } => b"WifiAccessPointStationDisconnected",
        ATEvent::EthernetLinkUp => b"EthernetLinkUp",
        ATEvent::EthernetLinkDown => b"EthernetLinkDown",
        ATEvent::NetworkUp { .. } => b"NetworkUp",
        ATEvent::NetworkDown { .. } => b"NetworkDown",
        ATEvent::NetworkError { .. } => b"NetworkError",
        ATEvent::DataAvailable { .. } => b"DataAvailable",
        ATEvent::BondEvent { .. } => b"BondEvent",
        ATEvent::UserConfirmation { .. } => b"UserConfirmation",
        ATEvent::UserPasskeyDisplay { .. } => b"UserPasskeyDisplay",
        ATEvent::UserPasskeyEntry { .. } => b"UserPasskeyEntry",
        ATEvent::ACLConnected { .. } => b"ACLConnected",
        ATEvent::ACLDisconnected { .. } => b"ACLDisconnected",
        ATEvent::GATTRequestToRead { .. } => b"GATTRequestToRead",
        ATEvent::GATTRequestToWrite { .. } => b"GATTRequestToWrite",
        ATEvent::GATTIndicationConfirmation { .. } => b"GATTIndicationConfirmation",
        ATEvent::GATTNotification { .. } => b"GATTNotification",
        ATEvent::GATTIndication { .. } => b"GATTIndication",
        ATEvent::PeerConnectedBluetooth { .. } => b"PeerConnectedBluetooth",
    }
}

impl RadioEvent for ATEvent {
    ghost cases = { cases26 };

    ghost says = { event_of };

    fn print(self, buf: &mut [u8], at: usize, src: &[u8]) -> usize {
        let at = word(buf, at, case_name(self));
        fields(buf, at, src, rows(), Parts::from(self))
    }
}
