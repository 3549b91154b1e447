// The event of a W26 row, from the fields that were taken for it.
ghost use Rattle.std.specs.Prelude.{◌≡◌, ◌<◌, length};
ghost use Rattle.at.specs.Refusal.{good};
ghost use Rattle.at.specs.Event.{kinds_of, event};
ghost use Rattle.at.specs.W26.{table, UUDPC, UUDPC-BT, event_of};
ghost use Rattle.at.specs.Parts.{row_no};
ghost use Rattle.at.specs.Steps.{profile_of, reason_of, values_of, with_fields};

use crate::field::Field;
use crate::w26::{ATEvent, PeerConnectedProfile, WifiLinkDisconnectedReason};
use crate::{ConnHandle, PeerHandle, Text, w26};

// A protocol that was taken is one of the list, so the last arm is that of 6.
fn profile_of(n: usize) -> PeerConnectedProfile
    ensures { result ≡ profile_of n }
{
    match n {
        1 => PeerConnectedProfile::TCP,
        2 => PeerConnectedProfile::UDP,
        _ => PeerConnectedProfile::MQTT,
    }
}

// A reason that was taken is one of the list, so the last arm is that of 5.
fn reason_of(n: usize) -> WifiLinkDisconnectedReason
    ensures { result ≡ reason_of n }
{
    match n {
        0 => WifiLinkDisconnectedReason::Unknown,
        1 => WifiLinkDisconnectedReason::RemoteClose,
        2 => WifiLinkDisconnectedReason::OutOfRange,
        3 => WifiLinkDisconnectedReason::Roaming,
        4 => WifiLinkDisconnectedReason::SecurityProblems,
        _ => WifiLinkDisconnectedReason::NetworkDisabled,
    }
}

fn peer_connected(fields: &[Field; 7]) -> ATEvent
    ensures { event_of result ≡ event UUDPC (values_of (kinds_of UUDPC) 0 fields.now) }
{
    let handle = fields[0];
    let address = fields[1];
    let protocol = fields[2];
    let local = fields[3];
    let local_port = fields[4];
    let remote = fields[5];
    let remote_port = fields[6];
    ATEvent::PeerConnectedIP {
        peer_handle: PeerHandle(handle.word()),
        is_ipv6: address.value == 3,
        protocol: profile_of(protocol.value),
        local_address: local.text(),
        local_port: local_port.word(),
        remote_address: remote.text(),
        remote_port: remote_port.word(),
    }
}

fn bluetooth_peer(fields: &[Field; 7]) -> ATEvent
    ensures { event_of result ≡ event UUDPC-BT (values_of (kinds_of UUDPC-BT) 0 fields.now) }
{
    let handle = fields[0];
    let profile = fields[2];
    let address = fields[3];
    let frame_size = fields[4];
    ATEvent::PeerConnectedBluetooth {
        peer_handle: PeerHandle(handle.word()),
        profile: profile.byte(),
        address: address.text(),
        frame_size: frame_size.word(),
    }
}

// No row comes to the last arm.
fn gatt_event(row: usize, fields: &[Field; 7]) -> ATEvent
    ensures { 19 < row → row < length table → good (event_of result) ≡ with_fields (row_no table row) fields.now }
{
    let first = fields[0];
    let second = fields[1];
    let third = fields[2];
    let fourth = fields[3];
    let link = first.word();
    let attribute = second.word();
    let options = fourth.byte();
    let data = third.text();
    match row {
        w26::UUBTGRR => ATEvent::GATTRequestToRead {
            conn_handle: ConnHandle(link),
            char_handle: attribute,
        },
        w26::UUBTGRW => ATEvent::GATTRequestToWrite {
            conn_handle: ConnHandle(link),
            char_handle: attribute,
            value: data,
            options,
        },
        w26::UUBTGIC => ATEvent::GATTIndicationConfirmation {
            conn_handle: ConnHandle(link),
            char_handle: attribute,
        },
        w26::UUBTGN => ATEvent::GATTNotification {
            conn_handle: ConnHandle(link),
            value_handle: attribute,
            hex_data: data,
        },
        w26::UUBTGI => ATEvent::GATTIndication {
            conn_handle: ConnHandle(link),
            value_handle: attribute,
            hex_data: data,
        },
        w26::UUDPC_BT => bluetooth_peer(fields),
        _ => ATEvent::EthernetLinkUp,
    }
}

fn bluetooth_event(row: usize, fields: &[Field; 7]) -> ATEvent
    ensures { 12 < row → row < length table → good (event_of result) ≡ with_fields (row_no table row) fields.now }
{
    let first = fields[0];
    let second = fields[1];
    let third = fields[2];
    let handle = first.word();
    let length = second.word();
    let code = second.byte();
    let number = second.long();
    let address = first.text();
    let remote = third.text();
    match row {
        w26::UUDATA => ATEvent::DataAvailable {
            peer: PeerHandle(handle),
            length,
        },
        w26::UUBTB => ATEvent::BondEvent {
            bd_addr: address,
            status: code,
        },
        w26::UUBTUC => ATEvent::UserConfirmation {
            bd_addr: address,
            value: number,
        },
        w26::UUBTUPD => ATEvent::UserPasskeyDisplay {
            bd_addr: address,
            passkey: number,
        },
        w26::UUBTUPE => ATEvent::UserPasskeyEntry { bd_addr: address },
        w26::UUBTACLC => ATEvent::ACLConnected {
            conn_handle: ConnHandle(handle),
            type_: code,
            bd_addr: remote,
        },
        w26::UUBTACLD => ATEvent::ACLDisconnected {
            conn_handle: ConnHandle(handle),
        },
        _ => gatt_event(row, fields),
    }
}

pub(crate) fn event_of(row: usize, fields: &[Field; 7]) -> ATEvent
    ensures { row < length table → good (event_of result) ≡ with_fields (row_no table row) fields.now }
{
    let first = fields[0];
    let second = fields[1];
    let third = fields[2];
    let id = first.word();
    let code = second.word();
    let channel = third.word();
    let address = second.text();
    match row {
        w26::UUDPC => peer_connected(fields),
        w26::UUDPD => ATEvent::PeerDisconnected {
            peer_handle: PeerHandle(id),
        },
        w26::UUWLE => ATEvent::WifiLinkConnected {
            conn_id: id,
            bssid: address,
            channel,
        },
        w26::UUWLD => ATEvent::WifiLinkDisconnected {
            conn_id: id,
            reason: reason_of(second.value),
        },
        w26::UUWAPU => ATEvent::WifiAccessPointUp { id },
        w26::UUWAPD => ATEvent::WifiAccessPointDown { id },
        w26::UUWAPSTAC => ATEvent::WifiAccessPointStationConnected {
            id,
            mac_addr: address,
        },
        w26::UUWAPSTAD => ATEvent::WifiAccessPointStationDisconnected { id },
        w26::UUETHLU => ATEvent::EthernetLinkUp,
        w26::UUETHLD => ATEvent::EthernetLinkDown,
        w26::UUNU => ATEvent::NetworkUp { interface_id: id },
        w26::UUND => ATEvent::NetworkDown { interface_id: id },
        w26::UUNERR => ATEvent::NetworkError {
            interface_id: id,
            code,
        },
        _ => bluetooth_event(row, fields),
    }
}
