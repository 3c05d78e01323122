// Why a trial is broken off.
ghost use Rattle.std.specs.Prelude.{◌≡◌};
ghost use Rattle.trial.specs.declared.stuck.Stuck.TheVariants.{NoMemory};

use std::alloc::AllocError;
use std::fmt;
use volume::entry::Call;
use volume::refusal::Refusal;

#[derive(Clone, Copy, PartialEq, Eq, Debug)]
pub enum Stuck {
    NoMemory,
    // The format is refused.
    Format(Refusal),
    // A call of a list is refused.
    Refused { call: Call, refusal: Refusal },
    // A call was not made, since there was no slip for it.
    NotMade(Call),
    // A read was accepted, and its block is not the one that was written.
    WrongBlock { number: usize },
}

impl From<AllocError> for Stuck {
    ghost from_gives = { λ _ r. r ≡ NoMemory };

    fn from(_error: AllocError) -> Stuck {
        Stuck::NoMemory
    }
}

// A call as a stage of the trial.
#[derive(Clone, Copy)]
struct Stage(Call);

impl fmt::Display for Stage {
    fn fmt<W: fmt::Write>(&self, f: &mut fmt::Formatter<W>) -> fmt::Result {
        let Stage(call) = *self;
        match call {
            Call::Open => f.write_str("open"),
            Call::Begin { place: _ } => f.write_str("begin"),
            Call::Read { number } => write!(f, "read: block {number}"),
            Call::Write { place: _, number } => write!(f, "write: block {number}"),
            Call::Keep { place: _ } => f.write_str("keep"),
            Call::Leave { place: _ } => f.write_str("leave"),
            Call::Shut => f.write_str("shut"),
        }
    }
}

// One line of text.
impl fmt::Display for Stuck {
    fn fmt<W: fmt::Write>(&self, f: &mut fmt::Formatter<W>) -> fmt::Result {
        match *self {
            Stuck::NoMemory => f.write_str("out of memory"),
            Stuck::Format(refusal) => {
                let number = refusal.number();
                write!(f, "format: refusal {number}")
            }
            Stuck::Refused { call, refusal } => {
                let number = refusal.number();
                write!(f, "{}: refusal {number}", Stage(call))
            }
            Stuck::NotMade(call) => write!(f, "{}: not made, since there was no slip", Stage(call)),
            Stuck::WrongBlock { number } => {
                write!(f, "read: block {number}: not the block that was written")
            }
        }
    }
}
