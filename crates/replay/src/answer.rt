// The answer to a line.
ghost use Rattle.std.specs.Prelude.{◌≡◌, ◌*◌, ◌≤◌, ◌||◌, length, ◌==◌};
ghost use Rattle.std.specs.List.{list_all};
ghost use Rattle.at.specs.Line.{read_line};
ghost use Rattle.at.specs.W26.{w26};
ghost use Rattle.at.specs.W36.{w36};
ghost use Rattle.at.specs.Walk.{read_either};
ghost use Rattle.render.specs.Print.{Prints};
ghost use Rattle.lines.specs.Hex.{bytes_in};
ghost use Rattle.replay.specs.Reply.{read_reply, explain_reply, packet_reply, event_reply, again_reply, write_reply, sized_reply, what as whatLine, of_bytes, is_note, short_reply};

use crate::capture::every_record;
use crate::dump::every_range;
use crate::question::{Explained, Question, Reader, Writer, question_of};
use crate::walk::every_event;
use at::Text;
use edm::{Channel, EdmPacket};
use lines::hex::decode;
use render::explained;
use render::refusal::Refusal;
use render::word::{number, word};
use text::bytes::{part, starts_at};
use writer::Lines;

fn read(output: &mut [u8], place: usize, src: &[u8], reader: Reader) -> usize
    ensures { Prints output.old place (read_reply reader src.now) result output.new }
{
    match reader {
        Reader::Frame => render::frame::answer(output, place, src, edm::frame::read(src)),
        Reader::W26 => render::event::answer(output, place, src, at::w26::read(src, 0)),
        Reader::W36 => render::event::answer(output, place, src, at::w36::read(src, 0)),
        Reader::Binary => render::w36::binary_answer(
            output,
            place,
            src,
            at::w36::try_parse_binary(src, 0),
        ),
        Reader::Walk36 => every_event(output, place, src),
        Reader::Response => render::response::answer(
            output,
            place,
            src,
            at::response::read(src, 0),
        ),
        Reader::WhyFrame => render::why::frame(output, place, src, edm::frame::read(src)),
        Reader::Why26 => render::why::event(output, place, src, at::w26::read(src, 0)),
        Reader::Why36 => render::why::event(output, place, src, at::w36::read(src, 0)),
        Reader::WhyBinary => render::why::binary(
            output,
            place,
            src,
            at::w36::try_parse_binary(src, 0),
        ),
        Reader::Capture => every_record(output, place, src),
        Reader::Scan => every_range(output, place, src),
        Reader::Explain(kind) => explain(output, place, src, kind),
    }
}

fn explain(output: &mut [u8], place: usize, src: &[u8], kind: Explained) -> usize
    ensures { Prints output.old place (explain_reply kind src.now) result output.new }
{
    match kind {
        Explained::Frame => explained::answer(output, place, src, checks::frame::explain(src)),
        Explained::W26 => explained::answer(output, place, src, checks::w26::explain(src, 0)),
        Explained::W36 => explained::answer(output, place, src, checks::w36::explain(src, 0)),
        Explained::Binary => explained::binary(output, place, src, checks::binary::explain(src, 0)),
        Explained::Response => {
            explained::answer(output, place, src, checks::response::explain(src, 0))
        }
    }
}

// An event of either radio, written.
fn write_event<E: Lines>(
    output: &mut [u8],
    place: usize,
    target: &mut [u8],
    src: &[u8],
    e: E,
) -> usize
    ensures { Prints output.old place (event_reply (length target.old) src.now (E.event_of e)) result output.new }
{
    let a = writer::write(target, src, e);
    render::written::answer(output, place, target, a)
}

fn again26(output: &mut [u8], place: usize, target: &mut [u8], src: &[u8]) -> usize
    ensures { Prints output.old place (again_reply (length target.old) src.now (read_line w26 0 src.now)) result output.new }
{
    match at::w26::read(src, 0) {
        Ok(read) => write_event(output, place, target, src, read.event),
        Err(e) => e.print(output, place),
    }
}

fn again36_text(output: &mut [u8], place: usize, target: &mut [u8], src: &[u8]) -> usize
    ensures { Prints output.old place (again_reply (length target.old) src.now (read_line w36 0 src.now)) result output.new }
{
    match at::w36::read(src, 0) {
        Ok(read) => write_event(output, place, target, src, read.event),
        Err(e) => e.print(output, place),
    }
}

fn again36(output: &mut [u8], place: usize, target: &mut [u8], src: &[u8]) -> usize
    ensures { Prints output.old place (again_reply (length target.old) src.now (read_either 0 src.now)) result output.new }
{
    match at::w36::try_parse_binary(src, 0) {
        Ok(Some(read)) => write_event(output, place, target, src, read.event),
        Ok(None) => again36_text(output, place, target, src),
        Err(e) => e.print(output, place),
    }
}

fn command(output: &mut [u8], place: usize, target: &mut [u8], src: &[u8], p: EdmPacket) -> usize
    ensures { Prints output.old place (packet_reply (length target.old) src.now p) result output.new }
{
    let a = edm::command::write(target, src, p);
    render::written::answer(output, place, target, a)
}

// `target` is the buffer of the size that the line asks for.
fn write(output: &mut [u8], place: usize, target: &mut [u8], src: &[u8], w: Writer) -> usize
    ensures { Prints output.old place (write_reply w (length target.old) src.now) result output.new }
{
    let all = Text {
        start: 0,
        len: src.len(),
    };
    match w {
        Writer::Data(channel) => {
            let p = EdmPacket::DataCommand {
                channel: Channel(channel),
                data: all,
            };
            command(output, place, target, src, p)
        }
        Writer::Request => command(output, place, target, src, EdmPacket::ATRequest(all)),
        Writer::Resend => command(output, place, target, src, EdmPacket::ResendConnectEvents),
        Writer::Again26 => again26(output, place, target, src),
        Writer::Again36 => again36(output, place, target, src),
    }
}

fn write_within(
    output: &mut [u8],
    place: usize,
    target: &mut [u8],
    size: usize,
    src: &[u8],
    w: Writer,
) -> usize
    ensures { Prints output.old place (sized_reply (length target.old) w size src.now) result output.new }
{
    if size <= target.len() {
        write(output, place, &mut target[0..size], src, w)
    } else {
        word(output, place, b"too long")
    }
}

// The line with this number is no question.
fn what(output: &mut [u8], place: usize, n: u64) -> usize
    ensures { Prints output.old place (whatLine n) result output.new }
{
    let next = word(output, place, b"what? ");
    number(output, next, n)
}

fn read_hex(
    output: &mut [u8],
    place: usize,
    bytes: &mut [u8],
    s: &[u8],
    n: u64,
    reader: Reader,
) -> usize
    requires { length s.now ≤ 2 * length bytes.old }
    ensures { Prints output.old place (of_bytes n (bytes_in s.now) (read_reply reader)) result output.new }
{
    match decode(bytes, s) {
        Ok(k) => read(output, place, part(bytes, 0, k), reader),
        // The text is no hex: the buffer holds what the longest line spells.
        Err(_) => what(output, place, n),
    }
}

fn write_hex(
    output: &mut [u8],
    place: usize,
    bytes: &mut [u8],
    target: &mut [u8],
    s: &[u8],
    n: u64,
    size: usize,
    w: Writer,
) -> usize
    requires { length s.now ≤ 2 * length bytes.old }
    ensures { Prints output.old place (of_bytes n (bytes_in s.now) (sized_reply (length target.old) w size)) result output.new }
{
    match decode(bytes, s) {
        Ok(k) => write_within(output, place, target, size, part(bytes, 0, k), w),
        // The text is no hex: the buffer holds what the longest line spells.
        Err(_) => what(output, place, n),
    }
}

// Whether the line holds nothing but spaces and tabs.
fn is_blank(line: &[u8]) -> bool
    ensures { result ≡ list_all (λ b. (b == 32) || b == 9) line.now }
{
    line.iter().all(|b| matches!(*b, b' ' | b'\t'))
}

// Whether the line is passed on as it is.
fn is_note(line: &[u8]) -> bool
    ensures { result ≡ is_note line.now }
{
    starts_at(line, 0, b"#") || is_blank(line)
}

// The answer to the line with the number `n`.
pub(crate) fn answer(
    output: &mut [u8],
    place: usize,
    line: &[u8],
    n: u64,
    bytes: &mut [u8],
    target: &mut [u8],
) -> usize
    requires { (length line.now ≤ 2 * length bytes.old) × (length target.old ≡ 131072) }
    ensures { Prints output.old place (short_reply n line.now) result output.new }
{
    if is_note(line) {
        return word(output, place, line);
    }
    let Some(question) = question_of(line) else {
        return what(output, place, n);
    };
    match question {
        Question::Read { reader, hex } => read_hex(output, place, bytes, hex, n, reader),
        Question::Write { writer, size, hex } => {
            write_hex(output, place, bytes, target, hex, n, size, writer)
        }
        Question::Resend { size } => {
            write_within(output, place, target, size, b"", Writer::Resend)
        }
    }
}
