// Runs the text functions on vectors and writes a line for each: the edges of Table 3-7 of the Unicode Standard, and the rules of numbers, fields and
// places. The file stdout has the answers as the documents give them. Where the heading cannot be written, nothing else is tried.
#![tactic(auto)]

mod calls;
mod show;

use crate::calls::{
    byte_in_decimal, colon, fields, first, in_decimal, inside, last, long_in_decimal, part, put,
    read, same, starts, valid, whole,
};
use crate::show::said;
use lines::args::has_argument;
use std::env::Env;

// The first and the last sequence of each row, and the nearest ones outside it.
fn two_bytes(rt: &(impl Print + Eprint)) {
    valid(rt, b"\xC1\xBF");
    valid(rt, b"\xC2\x7F");
    valid(rt, b"\xC2\x80");
    valid(rt, b"\xDF\xBF");
    valid(rt, b"\xDF\xC0");
}

fn three_bytes(rt: &(impl Print + Eprint)) {
    valid(rt, b"\xE0\x9F\xBF");
    valid(rt, b"\xE0\xA0\x80");
    valid(rt, b"\xE1\x80\x80");
    valid(rt, b"\xEC\xBF\xBF");
    valid(rt, b"\xED\x9F\xBF");
    valid(rt, b"\xED\xA0\x80");
    valid(rt, b"\xEE\x80\x80");
    valid(rt, b"\xEF\xBF\xBF");
}

fn four_bytes(rt: &(impl Print + Eprint)) {
    valid(rt, b"\xF0\x8F\xBF\xBF");
    valid(rt, b"\xF0\x90\x80\x80");
    valid(rt, b"\xF1\x80\x80\x80");
    valid(rt, b"\xF3\xBF\xBF\xBF");
    valid(rt, b"\xF4\x8F\xBF\xBF");
    valid(rt, b"\xF4\x90\x80\x80");
    valid(rt, b"\xF5\x80\x80\x80");
    valid(rt, b"\xFF");
}

fn one_byte(rt: &(impl Print + Eprint)) {
    valid(rt, b"");
    valid(rt, b"\x00");
    valid(rt, b"\x7F");
    valid(rt, b"\x80");
    valid(rt, b"OK\r\n");
}

// Sequences that end too early, at the end of the text or before another.
fn cut(rt: &(impl Print + Eprint)) {
    valid(rt, b"\xC2");
    valid(rt, b"\xE2\x82");
    valid(rt, b"A\xE2\x82\xAC\xE2\x82");
    valid(rt, b"\xF0\x9F\x98");
    valid(rt, b"\xF0\x9F\x98\x80\xF0\x9F\x98A");
    whole(rt, b"");
    whole(rt, b"\xE2\x82\xAC");
    whole(rt, b"\xE2\x82");
    inside(rt, b"A\xE2\x82\xAC", 0);
    inside(rt, b"A\xE2\x82\xAC", 1);
    inside(rt, b"A\xE2\x82\xAC", 2);
    inside(rt, b"A\xE2\x82\xAC", 3);
    inside(rt, b"A\xE2\x82\xAC", 4);
}

fn numbers(rt: &(impl Print + Eprint)) {
    read(rt, b"0");
    read(rt, b"255");
    read(rt, b"256");
    read(rt, b"65535");
    read(rt, b"65536");
    read(rt, b"4294967295");
    read(rt, b"4294967296");
    read(rt, b"42949672950");
    read(rt, b"+00000000004294967295");
    read(rt, b"99999999999999999999999");
    read(rt, b"+7");
    read(rt, b"000007");
    read(rt, b"00000000000000000000000000000255");
}

fn no_numbers(rt: &(impl Print + Eprint)) {
    read(rt, b"");
    read(rt, b"+");
    read(rt, b"++7");
    read(rt, b"-0");
    read(rt, b" 7");
    read(rt, b"7 ");
    read(rt, b"256x");
    read(rt, b":");
    read(rt, b"/");
}

fn walks(rt: &(impl Print + Eprint)) {
    fields(rt, b"a,,b", 0);
    fields(rt, b"", 0);
    fields(rt, b",", 0);
    fields(rt, b"+N:1,2", 3);
    fields(rt, b"a,b", 3);
    fields(rt, b"a,b", 4);
}

fn places(rt: &(impl Print + Eprint)) {
    first(rt, b"a\r\nb\r\nc", 0);
    first(rt, b"a\r\nb\r\nc", 2);
    first(rt, b"a\r\nb\r\nc", 5);
    first(rt, b"\n\r\r", 0);
    last(rt, b"a\r\nb\r\nc");
    last(rt, b"\r\n");
    last(rt, b"\r");
    last(rt, b"");
    colon(rt, b"+N:1:2");
    colon(rt, b"+N");
}

fn written(rt: &(impl Print + Eprint)) {
    long_in_decimal(rt, 4294967295, 2);
    long_in_decimal(rt, 4294967295, 3);
    long_in_decimal(rt, 1000000000, 0);
    long_in_decimal(rt, 999999999, 0);
    long_in_decimal(rt, 65536, 0);
    in_decimal(rt, 0, 0);
    in_decimal(rt, 65535, 1);
    in_decimal(rt, 65535, 3);
    in_decimal(rt, 65535, 4);
    in_decimal(rt, 1000, 8);
    in_decimal(rt, 7, 9);
    byte_in_decimal(rt, 255, 0);
    byte_in_decimal(rt, 10, 6);
    byte_in_decimal(rt, 100, 6);
    put(rt, b"OK", 2);
    put(rt, b"", 8);
    put(rt, b"", 9);
    put(rt, b"123456789", 0);
}

fn parts(rt: &(impl Print + Eprint)) {
    part(rt, b"abcdef", 2, 3);
    part(rt, b"abcdef", 4, 3);
    part(rt, b"abcdef", 7, 1);
    same(rt, b"+N", b"+N");
    same(rt, b"+N", b"+NN");
    same(rt, b"2", b"3");
    starts(rt, b"+N:1", 2, b":");
    starts(rt, b"+N:1", 3, b"1,");
    starts(rt, b"+N:1", 9, b"");
    starts(rt, b"+N:1", 9, b"1");
}

fn run(rt: &(impl Print + Eprint + Env)) {
    if has_argument(rt, 1) {
        let _ = eprintln!(rt; "text_vectors: takes no argument");
        return;
    }
    if !said(rt, b"# What the text functions answer\n") {
        return;
    }
    one_byte(rt);
    two_bytes(rt);
    three_bytes(rt);
    four_bytes(rt);
    cut(rt);
    numbers(rt);
    no_numbers(rt);
    walks(rt);
    places(rt);
    written(rt);
    parts(rt);
}

fn main(rt: HostRuntime) {
    run(&rt);
}
