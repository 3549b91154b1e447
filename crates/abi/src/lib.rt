// Calls for programs in C and Rust. Those of this file give each answer as one number; `read` hands out what was read and `write` takes what is to be
// written, in rows of numbers. bindings/ says what a caller owes.
#![tactic(auto)]

mod given;
mod packet;
pub mod read;
mod refusal;
mod row;
pub mod write;

ghost use Rattle.std.specs.Prelude.{◌≡◌, [], ◌∷◌, length};
ghost use Rattle.text.specs.Utf8.{valid_up_to};
ghost use Rattle.at.specs.Refusal.{good};
ghost use Rattle.at.specs.Line.{read_line};
ghost use Rattle.at.specs.W26.{w26};
ghost use Rattle.at.specs.W36.{w36, binary_table};
ghost use Rattle.at.specs.Binary.{try_rows};
ghost use Rattle.at.specs.Response.{read_response};
ghost use Rattle.edm.specs.Frame.{read_frame};
ghost use Rattle.edm.specs.Command.{command, request_of, to_send, shown};
ghost use Rattle.abi.specs.Code.{read_code, binary_code, why_code, why_binary_code, frame_base, write_code, Sends};

use crate::read::{binary_into, frame_into, w26_into, w36_into};
use crate::refusal::{of_at, of_frame, plain};
use edm::{Channel, EdmPacketError};

// The version of these calls. Its number is in its name, so that a program that was made for another version does not link.
#[unsafe(no_mangle)]
pub extern "C" fn mirvoncle_version_2() -> u32
    ensures { result ≡ 2 }
{
    2
}

pub(crate) fn written(a: Result<usize, EdmPacketError>) -> usize
    ensures { result ≡ write_code frame_base (shown a) }
{
    match a {
        Ok(n) => n,
        Err(e) => 65536 + usize::from(plain(of_frame(e))),
    }
}

// Each reader that can name a field has a call that says why it refuses. The plain call keeps the number alone.
#[unsafe(no_mangle)]
pub extern "C" fn mirvoncle_frame_why(s: &[u8]) -> u32
    ensures { result ≡ why_code (read_frame s.now) }
{
    let mut none = [0u64; 1];
    frame_into(s, &mut none)
}

#[unsafe(no_mangle)]
pub extern "C" fn mirvoncle_frame(s: &[u8]) -> u8
    ensures { result ≡ read_code (read_frame s.now) }
{
    plain(mirvoncle_frame_why(s))
}

#[unsafe(no_mangle)]
pub extern "C" fn mirvoncle_w26_why(s: &[u8]) -> u32
    ensures { result ≡ why_code (read_line w26 0 s.now) }
{
    let mut none = [0u64; 1];
    w26_into(s, &mut none)
}

#[unsafe(no_mangle)]
pub extern "C" fn mirvoncle_w26(s: &[u8]) -> u8
    ensures { result ≡ read_code (read_line w26 0 s.now) }
{
    plain(mirvoncle_w26_why(s))
}

#[unsafe(no_mangle)]
pub extern "C" fn mirvoncle_w36_why(s: &[u8]) -> u32
    ensures { result ≡ why_code (read_line w36 0 s.now) }
{
    let mut none = [0u64; 1];
    w36_into(s, 0, &mut none)
}

#[unsafe(no_mangle)]
pub extern "C" fn mirvoncle_w36(s: &[u8]) -> u8
    ensures { result ≡ read_code (read_line w36 0 s.now) }
{
    plain(mirvoncle_w36_why(s))
}

#[unsafe(no_mangle)]
pub extern "C" fn mirvoncle_w36_binary_why(s: &[u8]) -> u32
    ensures { result ≡ why_binary_code (try_rows binary_table 0 s.now) }
{
    let mut none = [0u64; 1];
    binary_into(s, 0, &mut none)
}

#[unsafe(no_mangle)]
pub extern "C" fn mirvoncle_w36_binary(s: &[u8]) -> u8
    ensures { result ≡ binary_code (try_rows binary_table 0 s.now) }
{
    plain(mirvoncle_w36_binary_why(s))
}

#[unsafe(no_mangle)]
pub extern "C" fn mirvoncle_response(s: &[u8]) -> u8
    ensures { result ≡ read_code (read_response 0 s.now) }
{
    match at::response::read(s, 0) {
        Ok(_) => 0,
        Err(e) => plain(of_at(e)),
    }
}

// How many bytes stand before the first that is not UTF-8; the length where all are.
#[unsafe(no_mangle)]
pub extern "C" fn mirvoncle_utf8_prefix(s: &[u8]) -> usize
    ensures { result ≡ valid_up_to s.now }
{
    text::utf8::valid_up_to(s)
}

#[unsafe(no_mangle)]
pub extern "C" fn mirvoncle_write_data(buf: &mut [u8], channel: u8, data: &[u8]) -> usize
    ensures { Sends frame_base buf.old (to_send (length buf.old) (good (command 0x36 (channel ∷ «data».now)))) result buf.new }
{
    written(edm::command::write_data(buf, Channel(channel), data))
}

#[unsafe(no_mangle)]
pub extern "C" fn mirvoncle_write_request(buf: &mut [u8], text: &[u8]) -> usize
    ensures { Sends frame_base buf.old (to_send (length buf.old) (request_of text.now)) result buf.new }
{
    written(edm::command::write_request(buf, text))
}

#[unsafe(no_mangle)]
pub extern "C" fn mirvoncle_write_resend(buf: &mut [u8]) -> usize
    ensures { Sends frame_base buf.old (to_send (length buf.old) (good (command 0x56 []))) result buf.new }
{
    written(edm::command::write_resend(buf))
}
