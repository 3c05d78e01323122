// What stops the reading of a sheet.
ghost use Rattle.std.specs.Prelude.{◌≡◌};
ghost use Rattle.subscriber.specs.Fault.{error_at};
ghost use Rattle.subscriber.specs.declared.fault.Fault.TheVariants as fault;

use crate::cause::{Cause, SheetError};
use std::alloc::AllocFailed;

// Why a line is not taken.
#[derive(Clone, Copy)]
pub(crate) enum Fault {
    Refused(Cause),
    NoMemory,
}

impl Fault {
    // The same, of the line with this number.
    pub(crate) fn at(self, line: usize) -> SheetError
        ensures { result ≡ error_at line self }
    {
        match self {
            Fault::Refused(cause) => SheetError::Bad { line, cause },
            Fault::NoMemory => SheetError::NoMemory,
        }
    }
}

// Both are written out, since contracts name what they give and a derive names nothing.
impl From<Cause> for Fault {
    ghost from_gives = { λ c r. r ≡ fault.Refused c };

    fn from(cause: Cause) -> Self {
        Self::Refused(cause)
    }
}

impl<T: Drop> From<AllocFailed<T>> for Fault {
    ghost from_gives = { λ _ r. r ≡ fault.NoMemory };

    fn from(_refused: AllocFailed<T>) -> Self {
        Self::NoMemory
    }
}
