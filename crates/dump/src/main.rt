// Frames out of a noisy serial dump: prints its ranges, a line each, with what each frame means, or writes its frames as a capture.
#![tactic(auto)]

mod put;
mod total;
mod window;

use crate::put::Form;
use crate::window::run;
use lines::args::{has_argument, is_word};
use pcap::write::write_header;
use std::env::Env;
use std::io::Read;

// What the arguments ask for; `None`: nothing that is known.
fn what_is_asked(rt: &impl Env) -> Option<Form> {
    if !has_argument(rt, 1) {
        return Some(Form::Lines);
    }
    if is_word(rt, 1, b"--pcap") && !has_argument(rt, 2) {
        return Some(Form::Capture);
    }
    None
}

// A capture begins with its header, for which there is room.
fn begin(output: &mut [u8], form: Form) -> usize {
    match form {
        Form::Lines => 0,
        Form::Capture => write_header(output).unwrap_or(0),
    }
}

// The list has room for the ranges of any window, the output for the bytes of a range and those before it.
fn dump(rt: &(impl Print + Eprint), from: &mut impl Read, form: Form) {
    let mut input = [0u8; 65536];
    let mut list = [0u32; 56175];
    let mut output = [0u8; 131072];
    let count = begin(&mut output, form);
    run(rt, from, &mut input, &mut list, &mut output, form, count);
}

fn main(rt: HostRuntime) {
    match what_is_asked(&rt) {
        Some(form) => dump(&rt, &mut rt.stdin(), form),
        None => {
            let _ = eprintln!(rt; "dump: usage: dump <DUMP >LINES, or dump --pcap <DUMP >CAPTURE");
        }
    }
}
