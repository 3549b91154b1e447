// Refusals by their names.
ghost use Rattle.std.specs.Prelude.{◌≡◌, ℕ, List, ◌++◌};
ghost use Rattle.text.specs.Bytes.{bytes};
ghost use Rattle.at.specs.Refusal as events;
ghost use Rattle.edm.specs.Refusal as frames;
ghost use Rattle.writer.specs.Write as writing;
ghost use Rattle.pcap.specs.Refusal as captures;
ghost use Rattle.scan.specs.Scan as dumps;
ghost use Rattle.render.specs.Print.{Prints};
ghost use Rattle.render.specs.Words.{name_in};
ghost use Rattle.render.specs.Refusal.{refusals, refused_line, frame_refused_line};
ghost use Rattle.render.specs.Walk.{place_line};

use crate::word::{place_after, word};
use at::AtPacketError;
use checks::refusal::{at_number, edm_number};
use edm::EdmPacketError;
use pcap::CaptureError;
use scan::ScanError;
use writer::EventWriteError;

// The refusals of a layer: the number of each, and its line.
pub trait Refusal: Copy {
    ghost number: { Self → ℕ };

    ghost line: { Self → List ℕ };

    fn number(self) -> u8
        ensures { result ≡ number self };

    fn print(self, buf: &mut [u8], at: usize) -> usize
        ensures { Prints buf.old at (line self) result buf.new };
}

// A refusal with the place where what is refused begins.
pub fn refused_at<E: Refusal>(buf: &mut [u8], at: usize, e: E, place: usize) -> usize
    ensures { Prints buf.old at (E.line e ++ place_line place) result buf.new }
{
    let at = e.print(buf, at);
    place_after(buf, at, place)
}

// The name of a number; nothing where it is no refusal's.
#[tactic(auto, unfolding(crate::specs::Refusal::refusals, crate::specs::Words::name_in))]
pub(crate) fn refusal_name(n: u8) -> &'static [u8]
    ensures { result.now ≡ name_in refusals n }
{
    match n {
        1 => b"PacketDecodeFramingInvalid",
        2 => b"PacketDecodeTargetMemorySizeInvalid",
        3 => b"PacketTypeDecodeLengthMismatch",
        4 => b"PayloadTypeUnknown",
        5 => b"ConnectEventUnsupported",
        6 => b"ConnectEventDecodeError",
        7 => b"DisconnectEventDecodeError",
        8 => b"AtRequestEventDecodeError",
        9 => b"PacketEncodeTypeUnknown",
        10 => b"PacketEncodePayloadSizeInvalid",
        11 => b"Utf8DecodeFailed",
        12 => b"FramingDecodeFailed",
        13 => b"TypeDecodeUnsupported",
        14 => b"TypeDecodeParameterMissing",
        15 => b"TypeDecodeParameterDataTypeInvalid",
        16 => b"EventUnknown",
        17 => b"FieldNotWritable",
        18 => b"EventBufferTooSmall",
        19 => b"CaptureHeaderInvalid",
        20 => b"CaptureRecordInvalid",
        21 => b"CaptureBufferTooSmall",
        22 => b"RangeListFull",
        23 => b"DumpTooLong",
        _ => b"",
    }
}

fn refused(buf: &mut [u8], at: usize, n: u8) -> usize
    ensures { Prints buf.old at (refused_line n) result buf.new }
{
    let at = word(buf, at, b"refused ");
    word(buf, at, refusal_name(n))
}

// A refusal of a frame: one of the AT layer is wrapped.
fn frame_refused(buf: &mut [u8], at: usize, n: u8) -> usize
    ensures { Prints buf.old at (frame_refused_line n) result buf.new }
{
    if 10 < n {
        let at = word(buf, at, b"refused AtPacketError ");
        word(buf, at, refusal_name(n))
    } else {
        refused(buf, at, n)
    }
}

impl Refusal for EdmPacketError {
    ghost number = { frames.refusal_no };

    ghost line = { λ e. frame_refused_line (frames.refusal_no e) };

    fn number(self) -> u8 {
        edm_number(self)
    }

    fn print(self, buf: &mut [u8], at: usize) -> usize {
        frame_refused(buf, at, self.number())
    }
}

// The refusals of an AT reader that was called by itself.
impl Refusal for AtPacketError {
    ghost number = { events.refusal_no };

    ghost line = { λ e. refused_line (events.refusal_no e) };

    fn number(self) -> u8 {
        at_number(self)
    }

    fn print(self, buf: &mut [u8], at: usize) -> usize {
        refused(buf, at, self.number())
    }
}

impl Refusal for EventWriteError {
    ghost number = { writing.refusal_no };

    ghost line = { λ e. refused_line (writing.refusal_no e) };

    fn number(self) -> u8 {
        match self {
            EventWriteError::FieldNotWritable => 17,
            EventWriteError::EventBufferTooSmall => 18,
        }
    }

    fn print(self, buf: &mut [u8], at: usize) -> usize {
        refused(buf, at, self.number())
    }
}

impl Refusal for CaptureError {
    ghost number = { captures.refusal_no };

    ghost line = { λ e. refused_line (captures.refusal_no e) };

    fn number(self) -> u8 {
        match self {
            CaptureError::CaptureHeaderInvalid => 19,
            CaptureError::CaptureRecordInvalid => 20,
            CaptureError::CaptureBufferTooSmall => 21,
        }
    }

    fn print(self, buf: &mut [u8], at: usize) -> usize {
        refused(buf, at, self.number())
    }
}

impl Refusal for ScanError {
    ghost number = { dumps.refusal_no };

    ghost line = { λ e. refused_line (dumps.refusal_no e) };

    fn number(self) -> u8 {
        match self {
            ScanError::RangeListFull => 22,
            ScanError::DumpTooLong => 23,
        }
    }

    fn print(self, buf: &mut [u8], at: usize) -> usize {
        refused(buf, at, self.number())
    }
}
