// AT responses.
ghost use Rattle.at.specs.Response.{response_of, shown};
ghost use Rattle.render.specs.Print.{Prints};
ghost use Rattle.render.specs.Response.{response_line, response_answer_line};

use crate::field::named_text;
use crate::refusal::Refusal;
use crate::word::word;
use at::AtPacketError;
use at::response::ATResponse;

pub(crate) fn response(buf: &mut [u8], at: usize, src: &[u8], a: ATResponse) -> usize
    ensures { Prints buf.old at (response_line src.now (response_of a)) result buf.new }
{
    match a {
        ATResponse::Ok(t) => named_text(buf, at, src, b"Ok", t),
        ATResponse::Error => word(buf, at, b"Error"),
        ATResponse::Other(t) => named_text(buf, at, src, b"Other", t),
    }
}

pub fn answer(buf: &mut [u8], at: usize, src: &[u8], a: Result<ATResponse, AtPacketError>) -> usize
    ensures { Prints buf.old at (response_answer_line src.now (shown a)) result buf.new }
{
    match a {
        Ok(r) => response(buf, at, src, r),
        Err(e) => e.print(buf, at),
    }
}
