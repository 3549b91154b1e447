// Captures that Wireshark opens: writes one from lines with times and frames, or reads one and prints such lines with what each frame means.
#![tactic(auto)]

mod line;
mod read;
mod window;
mod write;

use lines::args::{has_argument, is_word};
use std::env::Env;

// Whether the one argument is a word.
fn is_asked(rt: &impl Env, word: &[u8]) -> bool {
    is_word(rt, 1, word) && !has_argument(rt, 2)
}

// The input holds a longest line and what is read after it, the output the line of a longest record and those before it.
fn main(rt: HostRuntime) {
    let mut input = [0u8; 131072];
    let mut output = [0u8; 131072];
    if is_asked(&rt, b"write") {
        crate::write::write(&rt, &mut rt.stdin(), &mut input, &mut output);
        return;
    }
    if is_asked(&rt, b"read") {
        crate::read::read(&rt, &rt.stderr(), &mut rt.stdin(), &mut input, &mut output);
        return;
    }
    let _ = eprintln!(rt;
        "capture: usage: capture write <LINES >CAPTURE, or capture read <CAPTURE >LINES"
    );
}
