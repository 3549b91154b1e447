// The page: what the input is, its bytes, and then its fields, or the check that refused it and those that held before.
use crate::fields::{Numbered, Row};
use crate::form::Form;
use crate::found::Instead;
use crate::held::write_held;
use crate::marks::Owners;
use crate::packet::Packet;
use crate::requirement::Requirement;
use crate::show::Counted;
use crate::subject::{Kind, Subject};
use crate::verdict::{Accepted, Verdict, verdict_of};
use at::AtPacketError;
use at::response::ATResponse;
use checks::Refused;
use checks::part::PartWalk;
use checks::refusal::edm_number;
use edm::EdmPacketError;
use std::fmt;
use std::fmt::{Formatter, Write};

// The program reads no more bytes (main.rt), so a longer input may be refused for bytes that it does have.
const MOST: usize = 4100;

const CUT: &str =
    "Only the first 4,100 bytes are read; what follows them, if anything, is not explained.";

const NOT_BINARY: &str =
    "A binary event starts with CR LF +UESODB: or CR LF +UESODBF:, and this input does not.";

// What an input is, and what is said of it.
#[derive(Clone, Copy)]
struct Title<'a> {
    subject: Subject<'a>,
    said: Verdict,
}

// What an accepted input is: the packet, the event or what a response says.
fn write_accepted<W: Write>(f: &mut Formatter<W>, x: Subject, read: Accepted) -> fmt::Result {
    if let Some(packet) = x.packet {
        write!(f, "{packet}")?;
        f.write_str(if x.text.is_some() { ": " } else { "" })?;
    }
    f.write_str(match read.response {
        Some(ATResponse::Ok(_)) => "OK",
        Some(ATResponse::Error) => "ERROR",
        Some(ATResponse::Other(_)) => "neither OK nor ERROR",
        None => x.words(0),
    })
}

impl<'a> fmt::Display for Title<'a> {
    fn fmt<W: Write>(&self, f: &mut Formatter<W>) -> fmt::Result {
        let n = self.subject.input.len();
        let bytes = Counted { n, of: "byte" };
        let kind = self.subject.kind;
        write!(f, "{kind} of {bytes}: ")?;
        match self.said {
            Ok(Some(accepted)) => {
                f.write_str("accepted, ")?;
                write_accepted(f, self.subject, accepted)
            }
            Ok(None) => f.write_str("not a binary event"),
            Err(_) => f.write_str("refused"),
        }
    }
}

fn at_error_name(error: AtPacketError) -> &'static str {
    match error {
        AtPacketError::Utf8DecodeFailed => "Utf8DecodeFailed",
        AtPacketError::FramingDecodeFailed => "FramingDecodeFailed",
        AtPacketError::TypeDecodeUnsupported => "TypeDecodeUnsupported",
        AtPacketError::TypeDecodeParameterMissing { field: _ } => "TypeDecodeParameterMissing",
        AtPacketError::TypeDecodeParameterDataTypeInvalid { field: _, why: _ } => {
            "TypeDecodeParameterDataTypeInvalid"
        }
        AtPacketError::EventUnknown => "EventUnknown",
    }
}

fn error_name(error: EdmPacketError) -> &'static str {
    match error {
        EdmPacketError::PacketDecodeFramingInvalid => "PacketDecodeFramingInvalid",
        EdmPacketError::PacketDecodeTargetMemorySizeInvalid => {
            "PacketDecodeTargetMemorySizeInvalid"
        }
        EdmPacketError::PacketTypeDecodeLengthMismatch => "PacketTypeDecodeLengthMismatch",
        EdmPacketError::PayloadTypeUnknown => "PayloadTypeUnknown",
        EdmPacketError::ConnectEventUnsupported => "ConnectEventUnsupported",
        EdmPacketError::ConnectEventDecodeError => "ConnectEventDecodeError",
        EdmPacketError::DisconnectEventDecodeError => "DisconnectEventDecodeError",
        EdmPacketError::AtRequestEventDecodeError => "AtRequestEventDecodeError",
        EdmPacketError::PacketEncodeTypeUnknown => "PacketEncodeTypeUnknown",
        EdmPacketError::PacketEncodePayloadSizeInvalid => "PacketEncodePayloadSizeInvalid",
        EdmPacketError::AtPacketError(error) => at_error_name(error),
    }
}

fn write_table<F: Form, W: Write>(to: &mut W, subject: Subject, fields: PartWalk) -> fmt::Result {
    if fields.next(subject.input).is_none() {
        return F::paragraph(to, "It has no fields.");
    }
    F::table_start(to)?;
    for (number, step) in Numbered::new(subject.input, fields) {
        F::row(to, Row::new(number, step, subject))?;
    }
    F::table_end(to)
}

// What the table does not show: bytes after the event, a payload that is ignored.
fn write_note<F: Form, W: Write>(to: &mut W, subject: Subject, past: usize) -> fmt::Result {
    let len = subject.input.len();
    if past < len {
        F::gap(to)?;
        return F::paragraph(to, format_args!("The event ends before byte {past}."));
    }
    if subject.packet.is_some_and(Packet::is_payload_ignored) && 6 < len {
        F::gap(to)?;
        return F::paragraph(to, "The payload of this packet is ignored.");
    }
    Ok(())
}

fn write_refusal<F: Form, W: Write>(
    to: &mut W,
    subject: Subject,
    refused: Refused<EdmPacketError>,
) -> fmt::Result {
    let Refused { error, check, byte } = refused;
    let required = Requirement { check, subject };
    let instead = Instead {
        subject,
        check,
        byte,
    };
    F::reason(to, byte, format_args!("{required}{instead}"))?;
    let number = edm_number(error);
    let name = error_name(error);
    F::paragraph(to, format_args!("Refusal {number}, {name}"))?;
    F::gap(to)?;
    F::list_start(to, "Checks that held before it")?;
    write_held::<F, W>(to, check, subject)?;
    F::list_end(to)
}

// The page of an input. It fails only where the writer does.
pub(crate) fn write_page<F: Form, W: Write>(to: &mut W, s: &[u8], kind: Kind) -> fmt::Result {
    let subject = Subject::new(s, kind);
    let said = verdict_of(s, kind);
    F::top(to, Title { subject, said })?;
    if MOST <= s.len() {
        F::paragraph(to, CUT)?;
        F::gap(to)?;
    }
    F::bytes(to, s, &Owners::new(s, said))?;
    F::gap(to)?;
    match said {
        Ok(Some(accepted)) => {
            write_table::<F, W>(to, subject, accepted.fields)?;
            write_note::<F, W>(to, subject, accepted.past)?;
        }
        Ok(None) => F::paragraph(to, NOT_BINARY)?,
        Err(refused) => write_refusal::<F, W>(to, subject, refused)?,
    }
    F::bottom(to)
}
