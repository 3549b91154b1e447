// The events of either radio: the name of the case, then the fields in order.
ghost use Rattle.std.specs.Prelude.{◌≡◌, List, get_or};
ghost use Rattle.at.specs.Refusal.{answered};
ghost use Rattle.at.specs.Event.{Row, Event, text, read_as};
ghost use Rattle.at.specs.Parts.{value_of, values_of, Apart};
ghost use Rattle.at.specs.TableSteps.{Tabled};
ghost use Rattle.render.specs.Print.{Prints};
ghost use Rattle.render.specs.Words.{is_ipv6, protocols, reasons, name_in, number_word, word_of, spaced_word, values_line};
ghost use Rattle.render.specs.Event.{Case, event_line, answer_line};
ghost use Rattle.render.specs.Steps.{kind_of, kinds_in, fields_line};

use crate::hex::hex;
use crate::refusal::Refusal;
use crate::word::{number, word};
use at::parts::{Parts, Value};
use at::table::kinds_at;
use at::{AtPacketError, ReadEvent};
use text::bytes::part;

// The events of a radio: the names of their cases, and what each event says.
pub trait RadioEvent: Copy {
    ghost cases: { List Case };

    ghost says: { Self → Event };

    fn print(self, buf: &mut [u8], at: usize, src: &[u8]) -> usize
        ensures { Prints buf.old at (event_line cases src.now (says self)) result buf.new };
}

pub fn answer<E: RadioEvent>(
    buf: &mut [u8],
    at: usize,
    src: &[u8],
    a: Result<ReadEvent<E>, AtPacketError>,
) -> usize
    ensures { Prints buf.old at (answer_line E.cases src.now (answered (read_as E.says) a)) result buf.new }
{
    match a {
        Ok(r) => r.event.print(buf, at, src),
        Err(e) => e.print(buf, at),
    }
}

#[tactic(auto, unfolding(crate::specs::Words::is_ipv6, crate::specs::Words::name_in))]
fn is_ipv6(n: u32) -> &'static [u8]
    ensures { result.now ≡ name_in is_ipv6 n }
{
    match n {
        2 => b"0",
        3 => b"1",
        _ => b"",
    }
}

#[tactic(auto, unfolding(crate::specs::Words::protocols, crate::specs::Words::name_in))]
fn protocol(n: u32) -> &'static [u8]
    ensures { result.now ≡ name_in protocols n }
{
    match n {
        1 => b"TCP",
        2 => b"UDP",
        6 => b"MQTT",
        _ => b"",
    }
}

#[tactic(auto, unfolding(crate::specs::Words::reasons, crate::specs::Words::name_in))]
fn reason(n: u32) -> &'static [u8]
    ensures { result.now ≡ name_in reasons n }
{
    match n {
        0 => b"Unknown",
        1 => b"RemoteClose",
        2 => b"OutOfRange",
        3 => b"Roaming",
        4 => b"SecurityProblems",
        5 => b"NetworkDisabled",
        _ => b"",
    }
}

// A number by the letter of its kind.
fn number_of(buf: &mut [u8], at: usize, kind: u8, n: u32) -> usize
    ensures { Prints buf.old at (number_word (kind_of kind) n) result buf.new }
{
    match kind {
        b'i' => word(buf, at, is_ipv6(n)),
        b'p' => word(buf, at, protocol(n)),
        b'r' => word(buf, at, reason(n)),
        _ => number(buf, at, n as u64),
    }
}

fn value(buf: &mut [u8], at: usize, src: &[u8], kind: u8, v: Value) -> usize
    ensures { Prints buf.old at (word_of (kind_of kind) src.now (value_of v)) result buf.new }
{
    match v {
        Value::Number(n) => number_of(buf, at, kind, n),
        Value::Place(t) => hex(buf, at, part(src, t.start, t.len)),
    }
}

// A value after a space. The type of a Bluetooth peer is not printed, since the name of its case says it.
fn spaced(buf: &mut [u8], at: usize, src: &[u8], kind: u8, v: Value) -> usize
    ensures { Prints buf.old at (spaced_word (kind_of kind) src.now (value_of v)) result buf.new }
{
    if kind == b't' {
        return at;
    }
    let at = word(buf, at, b" ");
    value(buf, at, src, kind, v)
}

// The letter of a field; data after the fields are like a text.
fn letter_at(kinds: &[u8], i: usize) -> u8
    ensures { kind_of result ≡ get_or (kinds_in kinds.now) i text }
{
    if i < kinds.len() { kinds[i] } else { b's' }
}

fn values(buf: &mut [u8], at: usize, src: &[u8], kinds: &[u8], p: Parts) -> usize
    ensures { Prints buf.old at (values_line (kinds_in kinds.now) src.now (values_of p)) result buf.new }
{
    let mut to = at;
    for i in 0..p.value_count() {
        to = spaced(buf, to, src, letter_at(kinds, i), p.value_at(i));
    }
    to
}

// The fields of the event in these parts, by the table of its radio.
pub(crate) fn fields(buf: &mut [u8], at: usize, src: &[u8], table: &[u8], p: Parts) -> usize
    ensures { (rows : List Row) (e : Event) → Tabled rows table.now → Apart rows e p → Prints buf.old at (fields_line src.now e) result buf.new }
{
    values(buf, at, src, kinds_at(table, p.row), p)
}
