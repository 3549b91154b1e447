// Reads that hand out what was read, in a row of numbers that the caller lends.
//
// A function whose name ends in `_into` puts the answer into a row that has room for it, and returns the number that says why it is refused. The calls
// that give a number alone lend it a row of one number. So each reader is called at one place, which saves stack.
ghost use Rattle.std.specs.Prelude.{◌≡◌, [], ◌∷◌, ◌/◌, ◌%◌, drop};
ghost use Rattle.at.specs.Event.{event_to};
ghost use Rattle.at.specs.Line.{read_line};
ghost use Rattle.at.specs.W26 as of26;
ghost use Rattle.at.specs.W36 as of36;
ghost use Rattle.at.specs.Binary.{try_rows};
ghost use Rattle.at.specs.Response.{read_response};
ghost use Rattle.at.specs.Walk.{read_either, step_at};
ghost use Rattle.edm.specs.Packet.{packet_of};
ghost use Rattle.edm.specs.Frame.{read_frame};
ghost use Rattle.abi.specs.Code.{why_code, why_binary_code};
ghost use Rattle.abi.specs.Row.{read_numbers, response_numbers, packet_numbers, encode, encode_tried, encode_step, handed, HandsOut};

use crate::packet::put_packet;
use crate::refusal::{of_at, of_frame, plain};
use crate::row::{alone, event_to, put_response, put_w26, put_w36, refuse};
use at::{w26, w36};
use edm::EdmPacket;

fn hand_number(row: &mut [u64], n: u8)
    ensures { row.new ≡ handed row.old (n ∷ []) }
{
    if 17 <= row.len() {
        alone(row, n);
    }
}

fn hand_refusal(row: &mut [u64], why: u32)
    ensures { row.new ≡ handed row.old (why % 256 ∷ why / 256 % 256 ∷ why / 65536 ∷ []) }
{
    if 17 <= row.len() {
        refuse(row, why);
    }
}

fn hand_packet(row: &mut [u64], p: EdmPacket)
    ensures { row.new ≡ handed row.old (0 ∷ packet_numbers (packet_of p)) }
{
    if 17 <= row.len() {
        put_packet(row, p)
    }
}

fn hand_w26(row: &mut [u64], e: w26::ATEvent, past: usize)
    ensures { row.new ≡ handed row.old (0 ∷ read_numbers of26.table (event_to (of26.event_of e) past)) }
{
    if 17 <= row.len() {
        let to = put_w26(row, 1, e);
        event_to(row, to, past);
    }
}

// In line: the parts of the event then take no frame of their own, and a read takes less stack.
#[inline(always)]
fn hand_w36(row: &mut [u64], e: w36::ATEvent, past: usize)
    ensures { row.new ≡ handed row.old (0 ∷ read_numbers of36.rows36 (event_to (of36.event_of e) past)) }
{
    if 17 <= row.len() {
        let to = put_w36(row, 1, e);
        event_to(row, to, past);
    }
}

pub(crate) fn frame_into(s: &[u8], row: &mut [u64]) -> u32
    ensures { (result ≡ why_code (read_frame s.now)) × (row.new ≡ handed row.old (encode packet_numbers (read_frame s.now))) }
{
    match edm::frame::read(s) {
        Ok(p) => {
            hand_packet(row, p);
            0
        }
        Err(e) => {
            let why = of_frame(e);
            hand_refusal(row, why);
            why
        }
    }
}

pub(crate) fn w26_into(s: &[u8], row: &mut [u64]) -> u32
    ensures { (result ≡ why_code (read_line of26.w26 0 s.now)) × (row.new ≡ handed row.old (encode (read_numbers of26.table) (read_line of26.w26 0 s.now))) }
{
    match w26::read(s, 0) {
        Ok(read) => {
            hand_w26(row, read.event, read.past);
            0
        }
        Err(e) => {
            let why = of_at(e);
            hand_refusal(row, why);
            why
        }
    }
}

// The event in text that begins at a place.
pub(crate) fn w36_into(s: &[u8], at: usize, row: &mut [u64]) -> u32
    ensures { (result ≡ why_code (read_line of36.w36 at (drop at s.now))) × (row.new ≡ handed row.old (encode (read_numbers of36.rows36) (read_line of36.w36 at (drop at s.now)))) }
{
    match w36::read(s, at) {
        Ok(read) => {
            hand_w36(row, read.event, read.past);
            0
        }
        Err(e) => {
            let why = of_at(e);
            hand_refusal(row, why);
            why
        }
    }
}

// The binary event that begins at a place.
pub(crate) fn binary_into(s: &[u8], at: usize, row: &mut [u64]) -> u32
    ensures { (result ≡ why_binary_code (try_rows of36.binary_table at (drop at s.now))) × (row.new ≡ handed row.old (encode_tried (try_rows of36.binary_table at (drop at s.now)))) }
{
    match w36::try_parse_binary(s, at) {
        Ok(Some(read)) => {
            hand_w36(row, read.event, read.past);
            0
        }
        Ok(None) => {
            hand_number(row, 255);
            255
        }
        Err(e) => {
            let why = of_at(e);
            hand_refusal(row, why);
            why
        }
    }
}

// The event that begins at a place, binary or else text, as the walk of `at` reads it.
fn either_into(s: &[u8], at: usize, row: &mut [u64]) -> u32
    ensures { (result ≡ why_code (read_either at (drop at s.now))) × (row.new ≡ handed row.old (encode (read_numbers of36.rows36) (read_either at (drop at s.now)))) }
{
    let why = binary_into(s, at, row);
    if why == 255 {
        w36_into(s, at, row)
    } else {
        why
    }
}

#[unsafe(no_mangle)]
pub extern "C" fn mirvoncle_read_frame(s: &[u8], row: &mut [u64]) -> u8
    ensures { HandsOut row.old (encode packet_numbers (read_frame s.now)) result row.new }
{
    if row.len() < 17 {
        return 254;
    }
    plain(frame_into(s, row))
}

#[unsafe(no_mangle)]
pub extern "C" fn mirvoncle_read_w26(s: &[u8], row: &mut [u64]) -> u8
    ensures { HandsOut row.old (encode (read_numbers of26.table) (read_line of26.w26 0 s.now)) result row.new }
{
    if row.len() < 17 {
        return 254;
    }
    plain(w26_into(s, row))
}

#[unsafe(no_mangle)]
pub extern "C" fn mirvoncle_read_w36(s: &[u8], row: &mut [u64]) -> u8
    ensures { HandsOut row.old (encode (read_numbers of36.rows36) (read_line of36.w36 0 s.now)) result row.new }
{
    if row.len() < 17 {
        return 254;
    }
    plain(w36_into(s, 0, row))
}

#[unsafe(no_mangle)]
pub extern "C" fn mirvoncle_read_w36_binary(s: &[u8], row: &mut [u64]) -> u8
    ensures { HandsOut row.old (encode_tried (try_rows of36.binary_table 0 s.now)) result row.new }
{
    if row.len() < 17 {
        return 254;
    }
    plain(binary_into(s, 0, row))
}

// One step of the walk over a W36 read, from a place on. A refusal has the place after it.
#[unsafe(no_mangle)]
pub extern "C" fn mirvoncle_read_w36_step(s: &[u8], at: usize, row: &mut [u64]) -> u8
    ensures { HandsOut row.old (encode_step (step_at s.now at)) result row.new }
{
    if row.len() < 17 {
        return 254;
    }
    if s.len() <= at {
        return alone(row, 252);
    }
    let why = either_into(s, at, row);
    if why == 0 {
        return 0;
    }
    row[3] = at as u64;
    plain(why)
}

#[unsafe(no_mangle)]
pub extern "C" fn mirvoncle_read_response(s: &[u8], row: &mut [u64]) -> u8
    ensures { HandsOut row.old (encode response_numbers (read_response 0 s.now)) result row.new }
{
    if row.len() < 17 {
        return 254;
    }
    match at::response::read(s, 0) {
        Ok(a) => {
            row[0] = 0;
            put_response(row, 1, a);
            0
        }
        Err(e) => refuse(row, of_at(e)),
    }
}
