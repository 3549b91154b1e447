// What the program writes: texts, bytes in hex, numbers, answers.
use text::number::NumberError;

// Whether all of `s` was written. Where it was not, a line on standard error says why.
pub(crate) fn said(rt: &(impl Print + Eprint), s: &[u8]) -> bool {
    match rt.write_all(s) {
        Ok(()) => true,
        Err(e) => {
            let _ = eprintln!(rt; "text_vectors: cannot write standard output: {e}");
            false
        }
    }
}

pub(crate) fn say(rt: &(impl Print + Eprint), s: &[u8]) {
    said(rt, s);
}

pub(crate) fn number(rt: &(impl Print + Eprint), n: usize) {
    let mut digits = [0u8; 20];
    let k = io::decimal(n as u64, &mut digits);
    say(rt, &digits[..k]);
}

pub(crate) fn line(rt: &(impl Print + Eprint)) {
    say(rt, b"\n");
}

pub(crate) fn quoted(rt: &(impl Print + Eprint), s: &[u8]) {
    say(rt, b"\"");
    say(rt, s);
    say(rt, b"\"");
}

pub(crate) fn yes_or_no(rt: &(impl Print + Eprint), b: bool) {
    say(rt, if b { b"yes\n" } else { b"no\n" });
}

fn digit(n: u8) -> u8 {
    match n {
        0..=9 => b'0' + n,
        10..=15 => b'A' + (n - 10),
        _ => b'?',
    }
}

// Each byte as a space and two digits.
pub(crate) fn hex(rt: &(impl Print + Eprint), s: &[u8]) {
    for &b in s {
        say(rt, &[b' ', digit(b / 16), digit(b % 16)]);
    }
}

// A number, or why a text is none.
pub(crate) fn number_or_why(rt: &(impl Print + Eprint), n: Result<usize, NumberError>) {
    match n {
        Ok(n) => number(rt, n),
        Err(NumberError::Empty) => say(rt, b"refused empty"),
        Err(NumberError::Byte) => say(rt, b"refused byte"),
        Err(NumberError::Large) => say(rt, b"refused large"),
    }
    line(rt);
}

// A place after its word, or what is said where there is none.
fn place(rt: &(impl Print + Eprint), word: &[u8], p: Option<usize>, none: &[u8]) {
    match p {
        Some(i) => {
            say(rt, word);
            number(rt, i);
        }
        None => say(rt, none),
    }
}

pub(crate) fn found(rt: &(impl Print + Eprint), p: Option<usize>) {
    place(rt, b"at ", p, b"nothing");
    line(rt);
}

pub(crate) fn wrote(rt: &(impl Print + Eprint), p: Option<usize>) {
    place(rt, b"to ", p, b"no room");
    say(rt, b", ");
}
