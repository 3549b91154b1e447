// W36 event lines.
ghost use Rattle.std.specs.Prelude.{length, drop};
ghost use Rattle.std.proofs.Common.{refl, inr};
ghost use Rattle.at.specs.Line.{read_line};
ghost use Rattle.at.specs.W36 as spec;
ghost use Rattle.at.specs.W36.{w36};
ghost use Rattle.checks.specs.Line.{line_checks};
ghost use Rattle.checks.specs.Part.{line_shape, parts_by};
ghost use Rattle.checks.specs.Explained.{Explains, shown_w36};

use crate::line::{Line, explain_line};
use crate::{Accepted, Refused};
use at::parts::Parts;
use at::w36::ATEvent;
use at::{AtPacketError, ReadEvent};
use text::bytes::part;
use text::find::first_crlf;

// The line ends at the next CR LF.
impl Line for ATEvent {
    ghost radio = { w36 };

    ghost event_of = { spec.event_of };

    ghost rows = { spec.rows36 };

    fn read(s: &[u8], from: usize) -> Result<ReadEvent<Self>, AtPacketError> {
        at::w36::read(s, from)
    }

    fn parts(self) -> Parts {
        Parts::from(self)
    }

    fn text_end(s: &[u8], from: usize) -> usize {
        let n = s.len().saturating_sub(2);
        first_crlf(part(s, 0, n), from.saturating_add(2)).unwrap_or(n)
    }

    ghost known = { inr refl };
}

// The line that starts at `from`. It has a name of its own, since `w36-explained` is about it.
pub fn explain(
    s: &[u8],
    from: usize,
) -> Result<Accepted<ReadEvent<ATEvent>>, Refused<AtPacketError>>
    ensures { Explains (line_checks w36 from (drop from s.now)) (read_line w36 from (drop from s.now)) (λ e. parts_by (line_shape (length s.now) e) s.now from) (shown_w36 s.now result) }
{
    explain_line(s, from)
}
