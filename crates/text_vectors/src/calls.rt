// One call, and one line that says what it was given and what it answered.
use crate::show::{found, hex, line, number, number_or_why, quoted, say, wrote, yes_or_no};
use text::field::Fields;
use text::number::NumberError;

pub(crate) fn valid(rt: &(impl Print + Eprint), s: &[u8]) {
    say(rt, b"valid_up_to");
    hex(rt, s);
    say(rt, b": ");
    number(rt, text::utf8::valid_up_to(s));
    line(rt);
}

pub(crate) fn whole(rt: &(impl Print + Eprint), s: &[u8]) {
    say(rt, b"is_utf8");
    hex(rt, s);
    say(rt, b": ");
    yes_or_no(rt, text::utf8::is_utf8(s));
}

pub(crate) fn inside(rt: &(impl Print + Eprint), s: &[u8], place: usize) {
    say(rt, b"inside_character");
    hex(rt, s);
    say(rt, b" at ");
    number(rt, place);
    say(rt, b": ");
    yes_or_no(rt, text::utf8::inside_character(s, place));
}

fn answered(rt: &(impl Print + Eprint), call: &[u8], s: &[u8], n: Result<usize, NumberError>) {
    say(rt, call);
    quoted(rt, s);
    say(rt, b": ");
    number_or_why(rt, n);
}

// Every width on one text.
pub(crate) fn read(rt: &(impl Print + Eprint), s: &[u8]) {
    answered(
        rt,
        b"read8 ",
        s,
        text::number::read::<u8>(s).map(usize::from),
    );
    answered(
        rt,
        b"read16 ",
        s,
        text::number::read::<u16>(s).map(usize::from),
    );
    answered(
        rt,
        b"read32 ",
        s,
        text::number::read::<u32>(s).map(|n| n as usize),
    );
}

// The field at a place, and the place that the walk stands at afterwards.
fn field(rt: &(impl Print + Eprint), s: &[u8], at: usize) -> usize {
    let Some(next) = Fields::from(at).next(s) else {
        return at;
    };
    say(rt, b" ");
    number(rt, next.start);
    quoted(rt, text::bytes::part(s, next.start, next.len));
    next.rest.at
}

// The first eight fields from a place on, each after its place.
pub(crate) fn fields(rt: &(impl Print + Eprint), s: &[u8], from: usize) {
    say(rt, b"fields ");
    quoted(rt, s);
    say(rt, b" from ");
    number(rt, from);
    say(rt, b":");
    let mut at = from;
    for _ in 0..8 {
        at = field(rt, s, at);
    }
    line(rt);
}

pub(crate) fn first(rt: &(impl Print + Eprint), s: &[u8], from: usize) {
    say(rt, b"first_crlf");
    hex(rt, s);
    say(rt, b" from ");
    number(rt, from);
    say(rt, b": ");
    found(rt, text::find::first_crlf(s, from));
}

pub(crate) fn last(rt: &(impl Print + Eprint), s: &[u8]) {
    say(rt, b"last_crlf");
    hex(rt, s);
    say(rt, b": ");
    found(rt, text::find::last_crlf(s));
}

pub(crate) fn colon(rt: &(impl Print + Eprint), s: &[u8]) {
    say(rt, b"first_byte : in ");
    quoted(rt, s);
    say(rt, b": ");
    found(rt, text::find::first_byte(s, 0, b':'));
}

// A number written over dots.
fn over(rt: &(impl Print + Eprint), call: &[u8], dots: &mut [u8], n: u32, at: usize) {
    say(rt, call);
    number(rt, n as usize);
    say(rt, b" at ");
    number(rt, at);
    say(rt, b": ");
    wrote(rt, text::decimal::write(dots, at, n));
    quoted(rt, dots);
    line(rt);
}

pub(crate) fn long_in_decimal(rt: &(impl Print + Eprint), n: u32, at: usize) {
    over(rt, b"write32 ", &mut [b'.'; 12], n, at);
}

pub(crate) fn in_decimal(rt: &(impl Print + Eprint), n: u16, at: usize) {
    over(rt, b"write16 ", &mut [b'.'; 8], u32::from(n), at);
}

pub(crate) fn byte_in_decimal(rt: &(impl Print + Eprint), n: u8, at: usize) {
    over(rt, b"write8 ", &mut [b'.'; 8], u32::from(n), at);
}

pub(crate) fn put(rt: &(impl Print + Eprint), s: &[u8], at: usize) {
    let mut buf = [b'.'; 8];
    say(rt, b"put ");
    quoted(rt, s);
    say(rt, b" at ");
    number(rt, at);
    say(rt, b": ");
    wrote(rt, text::put::put(&mut buf, at, s));
    quoted(rt, &buf);
    line(rt);
}

pub(crate) fn part(rt: &(impl Print + Eprint), s: &[u8], start: usize, len: usize) {
    say(rt, b"part ");
    quoted(rt, s);
    say(rt, b" from ");
    number(rt, start);
    say(rt, b" of ");
    number(rt, len);
    say(rt, b": ");
    quoted(rt, text::bytes::part(s, start, len));
    line(rt);
}

pub(crate) fn same(rt: &(impl Print + Eprint), a: &[u8], b: &[u8]) {
    say(rt, b"same ");
    quoted(rt, a);
    say(rt, b" ");
    quoted(rt, b);
    say(rt, b": ");
    yes_or_no(rt, text::bytes::same(a, b));
}

pub(crate) fn starts(rt: &(impl Print + Eprint), s: &[u8], at: usize, t: &[u8]) {
    say(rt, b"starts_at ");
    quoted(rt, s);
    say(rt, b" at ");
    number(rt, at);
    say(rt, b" with ");
    quoted(rt, t);
    say(rt, b": ");
    yes_or_no(rt, text::bytes::starts_at(s, at, t));
}
