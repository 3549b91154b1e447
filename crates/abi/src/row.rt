// Answers put into a lent row of numbers, which has room for the longest.
ghost use Rattle.std.specs.Prelude.{◌≡◌, [], ◌∷◌, ◌+◌, ◌≤◌, ◌<◌, ◌/◌, ◌%◌, length, set};
ghost use Rattle.text.specs.Put.{placed};
ghost use Rattle.at.specs.Parts.{value_of, values_of};
ghost use Rattle.at.specs.Response.{response_of};
ghost use Rattle.at.specs.W26 as of26;
ghost use Rattle.at.specs.W36 as of36;
ghost use Rattle.abi.specs.Row.{value_numbers, values_numbers, event_numbers, response_numbers, over};
ghost use Rattle.abi.specs.Steps.{Puts};

use crate::refusal::plain;
use at::parts::{Parts, Value};
use at::response::ATResponse;
use at::{w26, w36};

// Numbers at a place.
pub(crate) fn put<const N: usize>(row: &mut [u64], at: usize, numbers: [u64; N])
    requires { at + N ≤ length row.old }
    ensures { row.new ≡ placed row.old at numbers.entry }
{
    row[at..at + N].copy_from_slice(&numbers);
}

// A value at a place; the place after it.
fn put_value(row: &mut [u64], at: usize, v: Value) -> usize
    requires { at + 2 ≤ length row.old }
    ensures { (result ≡ at + length (value_numbers (value_of v))) × (row.new ≡ placed row.old at (value_numbers (value_of v))) }
{
    match v {
        Value::Number(n) => {
            put(row, at, [u64::from(n)]);
            at + 1
        }
        Value::Place(t) => {
            put(row, at, [t.start as u64, t.len as u64]);
            at + 2
        }
    }
}

// An event in parts, from a place on: the number of its row, and its values. The place after them. The loop goes over all seven values, so that the
// compiler unrolls it and needs no array of them on the stack.
#[inline(always)]
fn put_event(row: &mut [u64], at: usize, p: Parts) -> usize
    requires { at + 15 ≤ length row.old }
    ensures { Puts row.old at (p.row ∷ values_numbers (values_of p)) result row.new }
{
    row[at] = p.row as u64;
    let mut to = at + 1;
    for i in 0..7 {
        if i < p.count {
            to = put_value(row, to, p.values[i]);
        }
    }
    to
}

// The parts stand in a frame of their own, which is gone when the reader is called.
pub(crate) fn put_w26(row: &mut [u64], at: usize, e: w26::ATEvent) -> usize
    requires { at + 15 ≤ length row.old }
    ensures { Puts row.old at (event_numbers of26.table (of26.event_of e)) result row.new }
{
    put_event(row, at, Parts::from(e))
}

pub(crate) fn put_w36(row: &mut [u64], at: usize, e: w36::ATEvent) -> usize
    requires { at + 15 ≤ length row.old }
    ensures { Puts row.old at (event_numbers of36.rows36 (of36.event_of e)) result row.new }
{
    put_event(row, at, Parts::from(e))
}

// The 0 before an event, and the place just past it after its numbers.
pub(crate) fn event_to(row: &mut [u64], to: usize, past: usize) -> u8
    requires { (1 ≤ to) × (to < length row.old) }
    ensures { (result ≡ 0) × (row.new ≡ set (set row.old 0 0) to past) }
{
    row[0] = 0;
    row[to] = past as u64;
    0
}

// A refusal, by the number that says why; its own number.
pub(crate) fn refuse(row: &mut [u64], why: u32) -> u8
    requires { 17 ≤ length row.old }
    ensures { (result ≡ why % 256) × (row.new ≡ over row.old (why % 256 ∷ why / 256 % 256 ∷ why / 65536 ∷ [])) }
{
    put(
        row,
        0,
        [
            u64::from(why % 256),
            u64::from(why / 256 % 256),
            u64::from(why / 65536),
        ],
    );
    plain(why)
}

// A number alone.
pub(crate) fn alone(row: &mut [u64], n: u8) -> u8
    requires { 17 ≤ length row.old }
    ensures { (result ≡ n) × (row.new ≡ over row.old (n ∷ [])) }
{
    put(row, 0, [u64::from(n)]);
    n
}

// A response from a place on.
pub(crate) fn put_response(row: &mut [u64], at: usize, a: ATResponse)
    requires { at + 3 ≤ length row.old }
    ensures { row.new ≡ placed row.old at (response_numbers (response_of a)) }
{
    match a {
        ATResponse::Ok(t) => put(row, at, [0, t.start as u64, t.len as u64]),
        ATResponse::Error => put(row, at, [1]),
        ATResponse::Other(t) => put(row, at, [2, t.start as u64, t.len as u64]),
    }
}
