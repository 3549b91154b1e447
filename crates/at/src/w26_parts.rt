// A W26 event taken apart: the number of its row, and its values.
ghost use Rattle.std.specs.Prelude.{◌≡◌};
ghost use Rattle.at.specs.W26.{table, event_of, type_no};
ghost use Rattle.at.specs.Parts.{Apart};

use crate::parts::Value::{Number, Place};
use crate::parts::{Parts, Value};
use crate::w26;
use crate::w26::ATEvent;

fn type_number(is_ipv6: bool) -> u32
    ensures { result ≡ type_no is_ipv6 }
{
    if is_ipv6 { 3 } else { 2 }
}

// One arm for each event: part of them in a function of its own would need an arm that no event comes to.
impl From<ATEvent> for Parts {
    ghost from_gives = { λ e p. Apart table (event_of e) p };

    fn from(e: ATEvent) -> Self {
        match e {
            ATEvent::PeerConnectedIP {
                peer_handle,
                is_ipv6,
                protocol,
                local_address,
                local_port,
                remote_address,
                remote_port,
            } => Self::new(
                w26::UUDPC,
                [
                    Value::from(peer_handle.0),
                    Number(type_number(is_ipv6)),
                    Number(u32::from(protocol)),
                    Place(local_address),
                    Value::from(local_port),
                    Place(remote_address),
                    Value::from(remote_port),
                ],
            ),
            ATEvent::PeerDisconnected { peer_handle } => Self::new(
                w26::UUDPD,
                [Value::from(peer_handle.0)],
            ),
            ATEvent::WifiLinkConnected {
                conn_id,
                bssid,
                channel,
            } => Self::new(
                w26::UUWLE,
                [Value::from(conn_id), Place(bssid), Value::from(channel)],
            ),
            ATEvent::WifiLinkDisconnected { conn_id, reason } => {
                Self::new(
                    w26::UUWLD,
                    [Value::from(conn_id), Number(u32::from(reason))],
                )
            }
            ATEvent::WifiAccessPointUp { id } => Self::new(w26::UUWAPU, [Value::from(id)]),
            ATEvent::WifiAccessPointDown { id } => Self::new(w26::UUWAPD, [Value::from(id)]),
            ATEvent::WifiAccessPointStationConnected { id, mac_addr } => {
                Self::new(w26::UUWAPSTAC, [Value::from(id), Place(mac_addr)])
            }
            ATEvent::WifiAccessPointStationDisconnected { id } => Self::new(
                w26::UUWAPSTAD,
                [Value::from(id)],
            ),
            ATEvent::EthernetLinkUp => Self::new(w26::UUETHLU, []),
            ATEvent::EthernetLinkDown => Self::new(w26::UUETHLD, []),
            ATEvent::NetworkUp { interface_id } => Self::new(
                w26::UUNU,
                [Value::from(interface_id)],
            ),
            ATEvent::NetworkDown { interface_id } => Self::new(
                w26::UUND,
                [Value::from(interface_id)],
            ),
            ATEvent::NetworkError { interface_id, code } => {
                Self::new(w26::UUNERR, [Value::from(interface_id), Value::from(code)])
            }
            ATEvent::DataAvailable { peer, length } => Self::new(
                w26::UUDATA,
                [Value::from(peer.0), Value::from(length)],
            ),
            ATEvent::PeerConnectedBluetooth {
                peer_handle,
                profile,
                address,
                frame_size,
            } => Self::new(
                w26::UUDPC_BT,
                [
                    Value::from(peer_handle.0),
                    Number(1),
                    Value::from(profile),
                    Place(address),
                    Value::from(frame_size),
                ],
            ),
            ATEvent::BondEvent { bd_addr, status } => Self::new(
                w26::UUBTB,
                [Place(bd_addr), Value::from(status)],
            ),
            ATEvent::UserConfirmation { bd_addr, value } => {
                Self::new(w26::UUBTUC, [Place(bd_addr), Number(value)])
            }
            ATEvent::UserPasskeyDisplay { bd_addr, passkey } => {
                Self::new(w26::UUBTUPD, [Place(bd_addr), Number(passkey)])
            }
            ATEvent::UserPasskeyEntry { bd_addr } => Self::new(w26::UUBTUPE, [Place(bd_addr)]),
            ATEvent::ACLConnected {
                conn_handle,
                type_,
                bd_addr,
            } => Self::new(
                w26::UUBTACLC,
                [
                    Value::from(conn_handle.0),
                    Value::from(type_),
                    Place(bd_addr),
                ],
            ),
            ATEvent::ACLDisconnected { conn_handle } => Self::new(
                w26::UUBTACLD,
                [Value::from(conn_handle.0)],
            ),
            ATEvent::GATTRequestToRead {
                conn_handle,
                char_handle,
            } => Self::new(
                w26::UUBTGRR,
                [Value::from(conn_handle.0), Value::from(char_handle)],
            ),
            ATEvent::GATTRequestToWrite {
                conn_handle,
                char_handle,
                value,
                options,
            } => Self::new(
                w26::UUBTGRW,
                [
                    Value::from(conn_handle.0),
                    Value::from(char_handle),
                    Place(value),
                    Value::from(options),
                ],
            ),
            ATEvent::GATTIndicationConfirmation {
                conn_handle,
                char_handle,
            } => Self::new(
                w26::UUBTGIC,
                [Value::from(conn_handle.0), Value::from(char_handle)],
            ),
            ATEvent::GATTNotification {
                conn_handle,
                value_handle,
                hex_data,
            } => Self::new(
                w26::UUBTGN,
                [
                    Value::from(conn_handle.0),
                    Value::from(value_handle),
                    Place(hex_data),
                ],
            ),
            ATEvent::GATTIndication {
                conn_handle,
                value_handle,
                hex_data,
            } => Self::new(
                w26::UUBTGI,
                [
                    Value::from(conn_handle.0),
                    Value::from(value_handle),
                    Place(hex_data),
                ],
            ),
        }
    }
}
