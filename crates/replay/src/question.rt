// What a line asks.
ghost use Rattle.std.specs.Prelude.{◌≡◌, find, option_map};
ghost use Rattle.text.specs.Bytes.{same as sameBytes};
ghost use Rattle.lines.specs.Number.{number_in};
ghost use Rattle.replay.specs.Question.{words, kind_of, kinds, explainable_by, at_space, number_then, with_size, with_size_and_channel, with_size_alone, with_kind, asked};
ghost use Rattle.replay.specs.Steps.{Says, SaysKinds, sized_of, asked_of};

use lines::cut::cut_at;
use lines::number::decimal;
use text::bytes::same;

#[derive(Clone, Copy)]
pub(crate) enum Reader {
    Frame,
    W26,
    W36,
    Binary,
    Walk36,
    Response,
    WhyFrame,
    Why26,
    Why36,
    WhyBinary,
    Capture,
    Scan,
    Explain(Explained),
}

// What the bytes are that are explained.
#[derive(Clone, Copy)]
pub(crate) enum Explained {
    Frame,
    W26,
    W36,
    Binary,
    Response,
}

#[derive(Clone, Copy)]
pub(crate) enum Writer {
    Data(u8),
    Request,
    Resend,
    Again26,
    Again36,
}

// The bytes are spelt in hex; a resend has none.
#[derive(Clone, Copy)]
pub(crate) enum Question<'a> {
    Read {
        reader: Reader,
        hex: &'a [u8],
    },
    Write {
        writer: Writer,
        size: usize,
        hex: &'a [u8],
    },
    Resend {
        size: usize,
    },
}

#[derive(Clone, Copy)]
enum Kind {
    Read(Reader),
    Write(Writer),
    Data,
    Resend,
    Explain,
}

// A word, and what it means.
#[derive(Clone, Copy)]
struct Word<T>(&'static [u8], T);

static WORDS: [Word<Kind>; 18] = [
    Word(b"frame", Kind::Read(Reader::Frame)),
    Word(b"w26", Kind::Read(Reader::W26)),
    Word(b"w36", Kind::Read(Reader::W36)),
    Word(b"binary", Kind::Read(Reader::Binary)),
    Word(b"walk36", Kind::Read(Reader::Walk36)),
    Word(b"response", Kind::Read(Reader::Response)),
    Word(b"whyframe", Kind::Read(Reader::WhyFrame)),
    Word(b"why26", Kind::Read(Reader::Why26)),
    Word(b"why36", Kind::Read(Reader::Why36)),
    Word(b"whybinary", Kind::Read(Reader::WhyBinary)),
    Word(b"pcap", Kind::Read(Reader::Capture)),
    Word(b"scan", Kind::Read(Reader::Scan)),
    Word(b"data", Kind::Data),
    Word(b"request", Kind::Write(Writer::Request)),
    Word(b"resend", Kind::Resend),
    Word(b"again26", Kind::Write(Writer::Again26)),
    Word(b"again36", Kind::Write(Writer::Again36)),
    Word(b"explain", Kind::Explain),
];

static KINDS: [Word<Explained>; 5] = [
    Word(b"frame", Explained::Frame),
    Word(b"w26", Explained::W26),
    Word(b"w36", Explained::W36),
    Word(b"binary", Explained::Binary),
    Word(b"response", Explained::Response),
];

fn all_words() -> &'static [Word<Kind>]
    ensures { Says result.now words }
{
    &WORDS
}

fn all_kinds() -> &'static [Word<Explained>]
    ensures { SaysKinds result.now kinds }
{
    &KINDS
}

// What the first word of these with a name means.
fn meaning<T: Copy>(words: &[Word<T>], name: &[u8]) -> Option<T>
    ensures { result ≡ option_map (λ w. w.1) (find (λ w. sameBytes name.now w.0.now) words.now) }
{
    words.iter().find(|w| same(name, w.0)).map(|w| w.1)
}

fn kind_of(name: &[u8]) -> Option<Kind>
    ensures { result ≡ kind_of words name.now }
{
    meaning(all_words(), name)
}

fn explained_kind(name: &[u8]) -> Option<Explained>
    ensures { result ≡ explainable_by kinds name.now }
{
    meaning(all_kinds(), name)
}

// A number up to the next space, and what follows that.
fn number_then(s: &[u8]) -> Option<(usize, &[u8])>
    ensures { sized_of result ≡ number_then s.now }
{
    let (number, rest) = cut_at(s, b' ')?;
    Some((decimal(number)?, rest))
}

fn with_size(s: &[u8], writer: Writer) -> Option<Question<'_>>
    ensures { asked_of result ≡ with_size writer (number_then s.now) }
{
    let (size, hex) = number_then(s)?;
    Some(Question::Write { writer, size, hex })
}

fn with_channel(s: &[u8]) -> Option<Question<'_>>
    ensures { asked_of result ≡ with_size_and_channel (number_then s.now) }
{
    let (size, rest) = number_then(s)?;
    let (channel, hex) = number_then(rest)?;
    let channel = u8::try_from(channel).ok()?;
    let writer = Writer::Data(channel);
    Some(Question::Write { writer, size, hex })
}

fn with_size_alone(s: &[u8]) -> Option<Question<'_>>
    ensures { asked_of result ≡ with_size_alone (number_in s.now) }
{
    let size = decimal(s)?;
    Some(Question::Resend { size })
}

fn with_kind(s: &[u8]) -> Option<Question<'_>>
    ensures { asked_of result ≡ with_kind (at_space s.now) }
{
    let (kind, hex) = cut_at(s, b' ')?;
    let reader = Reader::Explain(explained_kind(kind)?);
    Some(Question::Read { reader, hex })
}

// `None`: the line asks nothing.
pub(crate) fn question_of(line: &[u8]) -> Option<Question<'_>>
    ensures { asked_of result ≡ asked line.now }
{
    let (word, rest) = cut_at(line, b' ')?;
    match kind_of(word)? {
        Kind::Read(reader) => Some(Question::Read { reader, hex: rest }),
        Kind::Write(writer) => with_size(rest, writer),
        Kind::Data => with_channel(rest),
        Kind::Resend => with_size_alone(rest),
        Kind::Explain => with_kind(rest),
    }
}
