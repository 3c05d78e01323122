// Why a sheet is refused.
ghost use Rattle.std.specs.Prelude.{◌≡◌, ◌^◌, ◌<◌};
ghost use Rattle.sheet_error.specs.Range.{least, most};
ghost use Rattle.sheet_error.specs.declared.cause.SheetError.TheVariants as error;

use std::alloc::AllocError;

// A line that stands once, before the first SIM.
#[derive(Clone, Copy, PartialEq, Eq, Debug)]
pub enum Header {
    Tray,
    Hash,
    Blocks,
}

// The word that a line begins with. Not a `Header` or `Sim`, which would name each word twice in every pattern.
#[derive(Clone, Copy, PartialEq, Eq, Debug)]
pub enum Keyword {
    Tray,
    Hash,
    Blocks,
    Sim,
}

// What a number of a sheet stands for.
#[derive(Clone, Copy, PartialEq, Eq, Debug)]
pub enum Number {
    Tray,
    Blocks,
    KeyIndex,
    Sequence,
}

impl Number {
    // The least number of its kind.
    pub fn least(self) -> u64
        ensures { result ≡ least self }
    {
        match self {
            Number::Tray | Number::Blocks => 1,
            Number::KeyIndex | Number::Sequence => 0,
        }
    }

    // The largest number of its kind.
    pub fn most(self) -> u64
        ensures value { result ≡ most self }
        ensures small { result < 2 ^ 48 }
    {
        match self {
            Number::Tray => u32::MAX.into(),
            Number::Blocks => 4096,
            Number::KeyIndex => u16::MAX.into(),
            Number::Sequence => (1 << 48) - 1,
        }
    }
}

// What is wrong with a line.
#[derive(Clone, Copy, PartialEq, Eq, Debug)]
pub enum Cause {
    // The first word is none of `tray`, `hash`, `blocks` and `sim`.
    UnknownWord,
    // Too few or too many words stand after this one.
    WordCount(Keyword),
    // Something else than decimal digits.
    NotANumber(Number),
    OutOfRange(Number),
    // Not 6 to 20 bytes long.
    IdentityLength,
    IdentityDigit,
    // The word after `hash` is neither `sha256` nor `siphash`.
    UnknownHash,
    // A salt or a key, which are written alike, is not 32 bytes long.
    KeyLength,
    // It has something else than hexadecimal digits.
    KeyDigit,
    Missing(Header),
    Repeated(Header),
    // A header stands after the first SIM.
    Late(Header),
    TooManySims,
}

// Why no sheet was read.
#[derive(Clone, Copy, PartialEq, Eq, Debug)]
pub enum SheetError {
    // The line, counted from 1, and what is wrong there.
    Bad { line: usize, cause: Cause },
    NoMemory,
}

// Want of memory, from a call that gives nothing back. Written out, since contracts name what it gives and a derive names nothing.
impl From<AllocError> for SheetError {
    ghost from_gives = { λ _ r. r ≡ error.NoMemory };

    fn from(_error: AllocError) -> SheetError {
        SheetError::NoMemory
    }
}
