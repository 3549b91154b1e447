// AT responses.
ghost use Rattle.std.specs.Prelude.{◌≡◌, drop};
ghost use Rattle.at.specs.Refusal.{refusal_of};
ghost use Rattle.at.specs.Response.{read_response, response_of};
ghost use Rattle.checks.specs.Response.{response_checks};
ghost use Rattle.checks.specs.Part.{response_shape, parts_by};
ghost use Rattle.checks.specs.Explained.{Explains, shown_response};
ghost use Rattle.checks.specs.Steps.{told, response_reason};

use crate::part::{PartWalk, Shape};
use crate::{Accepted, CheckName, Reason, Refused};
use at::AtPacketError;
use at::response::{ATResponse, read};
use text::bytes::part;
use text::find::first_crlf;
use text::utf8::valid_up_to;

// The shape of a response that starts at `from`.
pub(crate) fn shape_of(r: ATResponse, from: usize) -> Shape
    ensures { result ≡ response_shape from (response_of r) }
{
    match r {
        ATResponse::Ok(t) => Shape::Response {
            skip: t.start.saturating_sub(from),
            len: t.len,
        },
        ATResponse::Error => Shape::Bare,
        ATResponse::Other(t) => Shape::Response {
            skip: t.start.saturating_sub(from),
            len: t.len,
        },
    }
}

#[tactic(auto, using(crate::proofs::StartLaws::cuts), unfolding(crate::specs::Steps::response_reason))]
pub(crate) fn response_reason(s: &[u8], from: usize, e: AtPacketError) -> Reason
    ensures { told result (refusal_of e) ≡ response_reason from (drop from s.now) (refusal_of e) }
{
    let t = part(s, from, s.len());
    match e {
        AtPacketError::Utf8DecodeFailed => CheckName::Utf8.shown_at(from + valid_up_to(t)),
        _ if first_crlf(t, 0).is_some() => CheckName::LastLineEnd.shown_at(from + t.len()),
        _ => CheckName::FirstLineEnd.shown_at(from + t.len()),
    }
}

// The response that starts at `from`.
pub fn explain(s: &[u8], from: usize) -> Result<Accepted<ATResponse>, Refused<AtPacketError>>
    ensures { Explains (response_checks from (drop from s.now)) (read_response from (drop from s.now)) (λ a. parts_by (response_shape from a) s.now from) (shown_response s.now result) }
{
    match read(s, from) {
        Ok(answer) => Ok(Accepted {
            answer,
            fields: PartWalk::over(false, shape_of(answer, from), from),
        }),
        Err(error) => Err(response_reason(s, from, error).refuses(error)),
    }
}
