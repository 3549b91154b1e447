// Explanations: the check that refused and the byte that shows it, or the fields of what was accepted with their places.
ghost use Rattle.checks.specs.Part.{left, ◌from◌for◌};
ghost use Rattle.checks.specs.Explained.{shown_binary};
ghost use Rattle.render.specs.Print.{Prints};
ghost use Rattle.render.specs.Explained.{part_line, parts_line, broken_line, accepted_line, explained_by, binary_line};

use crate::label::{check_name, part_name};
use crate::refusal::{Refusal, refusal_name};
use crate::word::{number, place_after, word};
use at::w36::ATEvent;
use at::{AtPacketError, ReadEvent};
use checks::part::{PartStep, PartWalk};
use checks::{Accepted, CheckName, Refused};

fn field(buf: &mut [u8], at: usize, p: PartStep) -> usize
    ensures { Prints buf.old at (part_line (p.name from p.start for p.len)) result buf.new }
{
    let at = word(buf, at, b" ");
    let at = part_name(buf, at, p.name);
    let at = word(buf, at, b"@");
    let at = number(buf, at, p.start as u64);
    let at = word(buf, at, b"+");
    number(buf, at, p.len as u64)
}

// The fields that a walk over `src` has before it.
fn fields_of(buf: &mut [u8], at: usize, src: &[u8], fields: PartWalk) -> usize
    ensures { Prints buf.old at (parts_line (left src.now fields)) result buf.new }
{
    let mut walk = fields;
    let mut to = at;
    while let Some(p) = walk.next(src) {
        to = field(buf, to, p);
        walk = p.rest;
    }
    to
}

fn accepted(buf: &mut [u8], at: usize, src: &[u8], fields: PartWalk) -> usize
    ensures { Prints buf.old at (accepted_line (left src.now fields)) result buf.new }
{
    let at = word(buf, at, b"accepted");
    fields_of(buf, at, src, fields)
}

// The refusal with the number `n`.
fn refused(buf: &mut [u8], at: usize, n: u8, check: CheckName, byte: usize) -> usize
    ensures { Prints buf.old at (broken_line check n byte) result buf.new }
{
    let at = word(buf, at, b"refused ");
    let at = number(buf, at, n as u64);
    let at = word(buf, at, b" ");
    let at = word(buf, at, refusal_name(n));
    let at = place_after(buf, at, byte);
    let at = word(buf, at, b" ");
    check_name(buf, at, check)
}

pub fn answer<A: Copy, E: Refusal>(
    buf: &mut [u8],
    at: usize,
    src: &[u8],
    a: Result<Accepted<A>, Refused<E>>,
) -> usize
    ensures { Prints buf.old at (explained_by E.number src.now a) result buf.new }
{
    match a {
        Ok(x) => accepted(buf, at, src, x.fields),
        Err(r) => refused(buf, at, r.error.number(), r.check, r.byte),
    }
}

pub fn binary(
    buf: &mut [u8],
    at: usize,
    src: &[u8],
    a: Result<Option<Accepted<ReadEvent<ATEvent>>>, Refused<AtPacketError>>,
) -> usize
    ensures { Prints buf.old at (binary_line (shown_binary src.now a)) result buf.new }
{
    match a {
        Ok(Some(x)) => accepted(buf, at, src, x.fields),
        Ok(None) => word(buf, at, b"notbinary"),
        Err(r) => refused(buf, at, r.error.number(), r.check, r.byte),
    }
}
