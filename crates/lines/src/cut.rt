// A text cut in two.
ghost use Rattle.std.specs.Prelude.{◌≡◌, [], ◌∷◌};
ghost use Rattle.lines.specs.Cut.{cut_at, cut_of};

use text::bytes::part;
use text::find::first_byte;

// What stands before the first place of a byte, and what stands after it.
pub fn cut_at(s: &[u8], mark: u8) -> Option<(&[u8], &[u8])>
    ensures { cut_of result ≡ cut_at (mark ∷ []) s.now }
{
    let i = first_byte(s, 0, mark)?;
    Some((part(s, 0, i), part(s, i + 1, s.len())))
}
