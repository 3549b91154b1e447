// The words of checks and of fields: the name of the case, and the number of the field right after it, where it is about one.
ghost use Rattle.std.specs.Prelude.{◌≡◌, ◌++◌};
ghost use Rattle.text.specs.Decimal.{decimal};
ghost use Rattle.render.specs.Print.{Prints};
ghost use Rattle.render.specs.Label.{check_word, part_word};
ghost use Rattle.render.specs.Steps.{said};

use crate::word::{number, word};
use checks::CheckName;
use checks::part::PartName;

// A name, and the number of the field that it is about.
#[derive(Clone, Copy)]
struct Word {
    name: &'static [u8],
    field: Option<u8>,
}

fn plain(name: &'static [u8]) -> Word
    ensures { said result ≡ name.now }
{
    Word { name, field: None }
}

fn counted(name: &'static [u8], i: u8) -> Word
    ensures { said result ≡ name.now ++ decimal i }
{
    Word {
        name,
        field: Some(i),
    }
}

#[tactic(auto, unfolding(crate::specs::Label::check_names, crate::specs::Words::name_in))]
fn word_of_check(c: CheckName) -> Word
    ensures { said result ≡ check_word c }
{
    match c {
        CheckName::FrameOfTwo => plain(b"FrameOfTwo"),
        CheckName::StartByte => plain(b"StartByte"),
        CheckName::EndByte => plain(b"EndByte"),
        CheckName::FrameOfSix => plain(b"FrameOfSix"),
        CheckName::FrameLength => plain(b"FrameLength"),
        CheckName::Identifier => plain(b"Identifier"),
        CheckName::ConnectOfTwo => plain(b"ConnectOfTwo"),
        CheckName::ConnectType => plain(b"ConnectType"),
        CheckName::ConnectSize => plain(b"ConnectSize"),
        CheckName::DisconnectSize => plain(b"DisconnectSize"),
        CheckName::DataChannel => plain(b"DataChannel"),
        CheckName::RequestUtf8 => plain(b"RequestUtf8"),
        CheckName::Utf8 => plain(b"Utf8"),
        CheckName::LineOfTwo => plain(b"LineOfTwo"),
        CheckName::PlaceTwo => plain(b"PlaceTwo"),
        CheckName::LineEnd => plain(b"LineEnd"),
        CheckName::EventName => plain(b"EventName"),
        CheckName::FieldThere(i) => counted(b"FieldThere", i),
        CheckName::FieldEmpty(i) => counted(b"FieldEmpty", i),
        CheckName::FieldByte(i) => counted(b"FieldByte", i),
        CheckName::FieldLarge(i) => counted(b"FieldLarge", i),
        CheckName::FieldListed(i) => counted(b"FieldListed", i),
        CheckName::FieldType(i) => counted(b"FieldType", i),
        CheckName::FirstLineEnd => plain(b"FirstLineEnd"),
        CheckName::LastLineEnd => plain(b"LastLineEnd"),
        CheckName::Marker => plain(b"Marker"),
        CheckName::LengthBytes => plain(b"LengthBytes"),
        CheckName::DataBytes => plain(b"DataBytes"),
    }
}

#[tactic(auto, unfolding(crate::specs::Label::part_names, crate::specs::Words::name_in))]
fn word_of_part(n: PartName) -> Word
    ensures { said result ≡ part_word n }
{
    match n {
        PartName::StartByte => plain(b"StartByte"),
        PartName::Length => plain(b"Length"),
        PartName::Identifier => plain(b"Identifier"),
        PartName::Channel => plain(b"Channel"),
        PartName::ConnectType => plain(b"ConnectType"),
        PartName::Protocol => plain(b"Protocol"),
        PartName::RemoteAddress => plain(b"RemoteAddress"),
        PartName::RemotePort => plain(b"RemotePort"),
        PartName::LocalAddress => plain(b"LocalAddress"),
        PartName::LocalPort => plain(b"LocalPort"),
        PartName::Data => plain(b"Data"),
        PartName::Text => plain(b"Text"),
        PartName::Name => plain(b"Name"),
        PartName::Field(i) => counted(b"Field", i),
        PartName::Marker => plain(b"Marker"),
        PartName::DataLength => plain(b"DataLength"),
        PartName::EndByte => plain(b"EndByte"),
    }
}

fn labelled(buf: &mut [u8], at: usize, w: Word) -> usize
    ensures { Prints buf.old at (said w) result buf.new }
{
    let at = word(buf, at, w.name);
    match w.field {
        Some(i) => number(buf, at, i as u64),
        None => at,
    }
}

pub(crate) fn check_name(buf: &mut [u8], at: usize, c: CheckName) -> usize
    ensures { Prints buf.old at (check_word c) result buf.new }
{
    labelled(buf, at, word_of_check(c))
}

pub(crate) fn part_name(buf: &mut [u8], at: usize, n: PartName) -> usize
    ensures { Prints buf.old at (part_word n) result buf.new }
{
    labelled(buf, at, word_of_part(n))
}
