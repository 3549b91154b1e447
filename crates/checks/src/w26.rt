// W26 event lines.
ghost use Rattle.std.specs.Prelude.{length, drop};
ghost use Rattle.std.proofs.Common.{refl, inl};
ghost use Rattle.at.specs.Line.{read_line};
ghost use Rattle.at.specs.W26 as spec;
ghost use Rattle.at.specs.W26.{w26};
ghost use Rattle.checks.specs.Line.{line_checks};
ghost use Rattle.checks.specs.Part.{line_shape, parts_by};
ghost use Rattle.checks.specs.Explained.{Explains, shown_w26};

use crate::line::{Line, explain_line};
use crate::{Accepted, Refused};
use at::parts::Parts;
use at::w26::ATEvent;
use at::{AtPacketError, ReadEvent};

// The line takes up the rest of the buffer.
impl Line for ATEvent {
    ghost radio = { w26 };

    ghost event_of = { spec.event_of };

    ghost rows = { spec.table };

    fn read(s: &[u8], from: usize) -> Result<ReadEvent<Self>, AtPacketError> {
        at::w26::read(s, from)
    }

    fn parts(self) -> Parts {
        Parts::from(self)
    }

    #[tactic(auto, using(crate::proofs::PlaceLaws::texts))]
    fn text_end(s: &[u8], _from: usize) -> usize {
        s.len().saturating_sub(2)
    }

    ghost known = { inl refl };
}

// The line that starts at `from`, which takes up the rest of the buffer. It has a name of its own, since `w26-explained` is about it.
pub fn explain(
    s: &[u8],
    from: usize,
) -> Result<Accepted<ReadEvent<ATEvent>>, Refused<AtPacketError>>
    ensures { Explains (line_checks w26 from (drop from s.now)) (read_line w26 from (drop from s.now)) (λ e. parts_by (line_shape (length s.now) e) s.now from) (shown_w26 s.now result) }
{
    explain_line(s, from)
}
