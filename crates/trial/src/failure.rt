// Why there is no report of a trial.
ghost use Rattle.std.specs.Prelude.{◌≡◌};
ghost use Rattle.trial.specs.declared.failure.Failure.TheVariants.{Sheet, Trial};

use crate::stuck::Stuck;
use std::error::Error;
use std::fmt;
use subscriber::cause::SheetError;

#[derive(Clone, Copy, PartialEq, Eq, Debug)]
pub enum Failure {
    // The sheet is refused, or memory ran out over it.
    Sheet(SheetError),
    // The trial was broken off.
    Trial(Stuck),
}

// Both are written out, since contracts name what they give and a derive names nothing.
impl From<SheetError> for Failure {
    ghost from_gives = { λ error r. r ≡ Sheet error };

    fn from(error: SheetError) -> Failure {
        Failure::Sheet(error)
    }
}

impl From<Stuck> for Failure {
    ghost from_gives = { λ stuck r. r ≡ Trial stuck };

    fn from(stuck: Stuck) -> Failure {
        Failure::Trial(stuck)
    }
}

// One line of text.
impl fmt::Display for Failure {
    fn fmt<W: fmt::Write>(&self, f: &mut fmt::Formatter<W>) -> fmt::Result {
        match self {
            Failure::Sheet(error) => write!(f, "{error}"),
            Failure::Trial(stuck) => write!(f, "{stuck}"),
        }
    }
}

// For callers that take any error.
impl Error for Failure {}
