// What the readers say of an input, for every kind in one form.
use crate::subject::{Kind, TextKind};
use at::response::ATResponse;
use at::{AtPacketError, ReadEvent};
use checks::Refused;
use checks::part::PartWalk;
use edm::{EdmPacket, EdmPacketError};

// The fields of an accepted input, the place just past what was read, and the response, if it holds one.
#[derive(Clone, Copy)]
pub(crate) struct Accepted {
    pub fields: PartWalk,
    pub past: usize,
    pub response: Option<ATResponse>,
}

// Nothing is accepted of an input that is to be a binary event and is none.
pub(crate) type Verdict = Result<Option<Accepted>, Refused<EdmPacketError>>;

impl<E: Drop> From<checks::Accepted<ReadEvent<E>>> for Accepted {
    fn from(accepted: checks::Accepted<ReadEvent<E>>) -> Accepted {
        Accepted {
            fields: accepted.fields,
            past: accepted.answer.past,
            response: None,
        }
    }
}

// A refusal of a text as one of a frame.
fn of_text(refused: Refused<AtPacketError>) -> Refused<EdmPacketError> {
    Refused {
        error: EdmPacketError::from(refused.error),
        check: refused.check,
        byte: refused.byte,
    }
}

fn of_frame(s: &[u8]) -> Verdict {
    let accepted = checks::frame::explain(s)?;
    let response = match accepted.answer {
        EdmPacket::ATResponse(response) => Some(response),
        _ => None,
    };
    Ok(Some(Accepted {
        fields: accepted.fields,
        past: s.len(),
        response,
    }))
}

fn of_response(s: &[u8]) -> Verdict {
    let accepted = checks::response::explain(s, 0).map_err(of_text)?;
    Ok(Some(Accepted {
        fields: accepted.fields,
        past: s.len(),
        response: Some(accepted.answer),
    }))
}

fn of_w26(s: &[u8]) -> Verdict {
    let accepted = checks::w26::explain(s, 0).map_err(of_text)?;
    Ok(Some(Accepted::from(accepted)))
}

fn of_w36(s: &[u8]) -> Verdict {
    let accepted = checks::w36::explain(s, 0).map_err(of_text)?;
    Ok(Some(Accepted::from(accepted)))
}

fn of_binary(s: &[u8]) -> Verdict {
    let accepted = checks::binary::explain(s, 0).map_err(of_text)?;
    Ok(accepted.map(Accepted::from))
}

pub(crate) fn verdict_of(s: &[u8], kind: Kind) -> Verdict {
    match kind {
        Kind::Frame => of_frame(s),
        Kind::Text(TextKind::W26) => of_w26(s),
        Kind::Text(TextKind::W36) => of_w36(s),
        Kind::Text(TextKind::Binary) => of_binary(s),
        Kind::Text(TextKind::Response) => of_response(s),
    }
}
