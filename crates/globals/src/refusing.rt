// A refusal at a place of the script.
ghost use Rattle.std.specs.Prelude.{◌≡◌};
ghost use Rattle.script_refusals.specs.Refusals.{refused_at};

use script_refusals::{Refusal, Refused};

pub fn refused(refusal: Refusal, place: u16) -> Refused
    ensures { result ≡ refused_at refusal place }
{
    Refused {
        refusal,
        place: place as usize,
    }
}
