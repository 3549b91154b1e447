// Explains the first 4,100 bytes of standard input as one EDM frame, or as a line, a binary event or a response: a page of text or of HTML that shows
// which bytes each field came from, or which check refused it and at which byte.
#![tactic(auto)]

mod event;
mod fields;
mod form;
mod found;
mod held;
mod html_page;
mod marks;
mod order;
mod packet;
mod page;
mod requirement;
mod show;
mod style;
mod subject;
mod text_page;
mod verdict;

use crate::html_page::HtmlPage;
use crate::page::write_page;
use crate::subject::{Kind, TextKind};
use crate::text_page::TextPage;
use lines::args::{has_argument, is_word};
use lines::input::read_full;
use lines::output::say_failure;
use std::env::Env;
use std::fmt::InlineText;
use std::io::Read;
use text::bytes::part;

// What the arguments ask for.
#[derive(Clone, Copy)]
struct Asked {
    kind: Kind,
    html: bool,
}

// The kind of text that an argument names.
fn text_kind(rt: &impl Env, i: usize) -> Option<TextKind> {
    [
        TextKind::W26,
        TextKind::W36,
        TextKind::Binary,
        TextKind::Response,
    ]
    .into_iter()
    .find(|kind| is_word(rt, i, kind.word()))
}

// The kind is named by the argument after `--html`, or else by the first one. It has to be the last.
fn request(rt: &impl Env) -> Option<Asked> {
    let html = is_word(rt, 1, b"--html");
    let i = if html { 2 } else { 1 };
    if !has_argument(rt, i) {
        let kind = Kind::Frame;
        return Some(Asked { kind, html });
    }
    if has_argument(rt, i + 1) {
        return None;
    }
    let kind = Kind::Text(text_kind(rt, i)?);
    Some(Asked { kind, html })
}

// The page has a fixed place, since programs have no heap. A byte of the input takes at most 90 of it (html_page.rt), so there is room for 4,100
// of them and all else.
fn explain(rt: &(impl Print + Eprint), from: &mut impl Read, asked: Asked) {
    let mut input = [0u8; 4100];
    let n = match read_full(from, &mut input, 0) {
        Ok(n) => n,
        Err(e) => return say_failure(rt, "explain: cannot read standard input", Some(e.why)),
    };
    let s = part(&input, 0, n);
    let mut page = InlineText::<524288>::new();
    // It fails only where the page has no room.
    let _ = if asked.html {
        write_page::<HtmlPage, _>(&mut page, s, asked.kind)
    } else {
        write_page::<TextPage, _>(&mut page, s, asked.kind)
    };
    if let Err(e) = rt.write_all(page.as_str().as_bytes()) {
        say_failure(rt, "explain: cannot write standard output", Some(e));
    }
}

fn run(rt: &(impl Print + Eprint + Env), from: &mut impl Read) {
    match request(rt) {
        Some(asked) => explain(rt, from, asked),
        None => {
            let _ = eprintln!(rt;
                "explain: usage: explain [--html] [w26|w36|binary|response], with the input on standard input"
            );
        }
    }
}

fn main(rt: HostRuntime) {
    run(&rt, &mut rt.stdin());
}
