// What a refusal says to its reader.
ghost use Rattle.std.specs.Prelude.{◌≡◌, Some};
ghost use Rattle.sheet_error.specs.Wording.{header_text, number_text, form_text, cause_text, error_text};

use crate::cause::{Cause, Header, Keyword, Number, SheetError};
use std::error::Error;
use std::fmt;

// The word that the line begins with.
impl fmt::Display for Header {
    ghost output = { λ h. Some (header_text h) };

    fn fmt<W: fmt::Write>(&self, f: &mut fmt::Formatter<W>) -> fmt::Result {
        f.write_str(match self {
            Header::Tray => "tray",
            Header::Hash => "hash",
            Header::Blocks => "blocks",
        })
    }
}

// What the number stands for.
impl fmt::Display for Number {
    ghost output = { λ n. Some (number_text n) };

    fn fmt<W: fmt::Write>(&self, f: &mut fmt::Formatter<W>) -> fmt::Result {
        f.write_str(match self {
            Number::Tray => "tray number",
            Number::Blocks => "number of blocks",
            Number::KeyIndex => "key index",
            Number::Sequence => "sequence number",
        })
    }
}

impl Keyword {
    // The words of the line that begins with it.
    fn form(self) -> &'static str
        ensures { result.now ≡ form_text self }
    {
        match self {
            Keyword::Tray => "tray NUMBER",
            Keyword::Hash => "hash sha256 SALT or hash siphash KEY",
            Keyword::Blocks => "blocks NUMBER",
            Keyword::Sim => "sim IDENTITY KEY-INDEX SEQUENCE-NUMBER",
        }
    }
}

// What is wrong with a line.
impl fmt::Display for Cause {
    ghost output = { λ c. Some (cause_text c) };

    fn fmt<W: fmt::Write>(&self, f: &mut fmt::Formatter<W>) -> fmt::Result {
        match *self {
            Cause::UnknownWord => {
                f.write_str("the first word is none of tray, hash, blocks and sim")
            }
            Cause::WordCount(what) => {
                let form = what.form();
                write!(f, "wrong number of words ({form})")
            }
            Cause::NotANumber(what) => write!(f, "{what} is not written in decimal digits"),
            Cause::OutOfRange(what) => {
                let least = what.least();
                let most = what.most();
                write!(f, "{what} out of range ({least} to {most})")
            }
            Cause::IdentityLength => f.write_str("identity is not 6 to 20 digits long"),
            Cause::IdentityDigit => f.write_str("identity has something else than decimal digits"),
            Cause::UnknownHash => f.write_str("unknown hash (sha256 or siphash)"),
            Cause::KeyLength => f.write_str("salt or key is not 32 hexadecimal digits long"),
            Cause::KeyDigit => f.write_str(
                "salt or key has something else than hexadecimal digits",
            ),
            Cause::Missing(what) => write!(f, "{what} is missing"),
            Cause::Repeated(what) => write!(f, "{what} stands twice"),
            Cause::Late(what) => write!(f, "{what} stands after the first sim"),
            Cause::TooManySims => f.write_str("more SIMs than blocks"),
        }
    }
}

// One line of text.
impl fmt::Display for SheetError {
    ghost output = { λ e. Some (error_text e) };

    fn fmt<W: fmt::Write>(&self, f: &mut fmt::Formatter<W>) -> fmt::Result {
        match *self {
            SheetError::Bad { line, cause } => write!(f, "line {line}: {cause}"),
            SheetError::NoMemory => f.write_str("out of memory"),
        }
    }
}

// For callers that take any error.
impl Error for SheetError {}
