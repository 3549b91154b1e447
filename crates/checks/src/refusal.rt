// The numbers of the refusals, by the names that docs/PROMISES.md has and that `one-at-number` and `one-edm-number` are about.
ghost use Rattle.std.specs.Prelude.{◌≡◌};
ghost use Rattle.at.specs.Refusal.{refusal_no};
ghost use Rattle.edm.specs.Refusal as edm;

use at::AtPacketError;
use edm::EdmPacketError;

pub fn at_number(e: AtPacketError) -> u8
    ensures { result ≡ refusal_no e }
{
    u8::from(e)
}

pub fn edm_number(e: EdmPacketError) -> u8
    ensures { result ≡ edm.refusal_no e }
{
    u8::from(e)
}
