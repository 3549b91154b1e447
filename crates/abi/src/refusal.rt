// A refusal as one number: the number of document 01 in the lowest byte, the field that it carries in the next one, and the reason above both.
ghost use Rattle.std.specs.Prelude.{◌≡◌, ◌%◌, ◌≤◌};
ghost use Rattle.at.specs.Refusal as events;
ghost use Rattle.edm.specs.Refusal as frames;
ghost use Rattle.abi.specs.Code.{reason_of, why_no};

use at::{AtPacketError, FieldError};
use edm::EdmPacketError;
use text::number::NumberError;

fn reason(why: FieldError) -> u32
    ensures { (result ≡ reason_of why) × (result ≤ 4) }
{
    match why {
        FieldError::NoNumber(e) => match e {
            NumberError::Empty => 1,
            NumberError::Byte => 2,
            NumberError::Large => 3,
        },
        FieldError::NotListed => 4,
    }
}

pub(crate) fn of_at(e: AtPacketError) -> u32
    ensures { result ≡ why_no (events.refusal_of e) }
{
    match e {
        AtPacketError::Utf8DecodeFailed => 11,
        AtPacketError::FramingDecodeFailed => 12,
        AtPacketError::TypeDecodeUnsupported => 13,
        AtPacketError::TypeDecodeParameterMissing { field } => 14 + 256 * u32::from(field),
        AtPacketError::TypeDecodeParameterDataTypeInvalid { field, why } => {
            15 + (256 * u32::from(field) + 65536 * reason(why))
        }
        AtPacketError::EventUnknown => 16,
    }
}

pub(crate) fn of_frame(e: EdmPacketError) -> u32
    ensures { result ≡ why_no (frames.refusal_of e) }
{
    match e {
        EdmPacketError::PacketDecodeFramingInvalid => 1,
        EdmPacketError::PacketDecodeTargetMemorySizeInvalid => 2,
        EdmPacketError::PacketTypeDecodeLengthMismatch => 3,
        EdmPacketError::PayloadTypeUnknown => 4,
        EdmPacketError::ConnectEventUnsupported => 5,
        EdmPacketError::ConnectEventDecodeError => 6,
        EdmPacketError::DisconnectEventDecodeError => 7,
        EdmPacketError::AtRequestEventDecodeError => 8,
        EdmPacketError::PacketEncodeTypeUnknown => 9,
        EdmPacketError::PacketEncodePayloadSizeInvalid => 10,
        EdmPacketError::AtPacketError(inner) => of_at(inner),
    }
}

// The number of document 01, without what is carried.
pub(crate) fn plain(why: u32) -> u8
    ensures { result ≡ why % 256 }
{
    (why % 256) as u8
}
