// Why a case is not read.
ghost use Rattle.std.specs.Prelude.{◌≡◌};
ghost use Rattle.cases.specs.declared.unread.Unread.TheVariants as unread;

use super::Malformed;
use std::alloc::AllocError;

#[derive(Clone, Copy)]
pub enum Unread {
    Malformed(Malformed),
    OutOfMemory(AllocError),
}

impl From<Malformed> for Unread {
    ghost from_gives = { λ e r. r ≡ unread.Malformed e };

    fn from(e: Malformed) -> Unread {
        Unread::Malformed(e)
    }
}

impl From<AllocError> for Unread {
    ghost from_gives = { λ e r. r ≡ unread.OutOfMemory e };

    fn from(e: AllocError) -> Unread {
        Unread::OutOfMemory(e)
    }
}
