// Decimal numbers of a sheet.
ghost use Rattle.std.specs.Prelude.{◌≡◌, ◌^◌, ◌<◌, ◌≤◌, IfOk, IsTrue, SomeIff};
ghost use Rattle.subscriber.specs.Number.{digits_after, is_decimal, number_in};
ghost use Rattle.sheet_error.specs.Range.{least, most};

use crate::cause::{Cause, Number};
use std::str;

// Whether the word is one decimal digit or more, and nothing else.
#[tactic(auto, unfolding(crate::specs::Number::is_decimal))]
fn is_decimal(word: &[u8]) -> bool
    ensures { result ≡ is_decimal word.now }
{
    !word.is_empty() && word.iter().all(|b| b.is_ascii_digit())
}

// The number that the digits write, or `None` where 64 bits are too few.
fn decimal(digits: &[u8]) -> Option<u64>
    requires { IsTrue (is_decimal digits.now) }
    ensures { SomeIff result (digits_after 0 digits.now < 2 ^ 64) (digits_after 0 digits.now) }
{
    str::from_utf8(digits).unwrap().parse().ok()
}

// A word as a number of this kind, whose range shows that a caller's `as` loses nothing; a conversion that may fail would add a refusal
// that never comes.
#[tactic(auto, unfolding(crate::specs::Number::number_in))]
pub(crate) fn number(word: &[u8], what: Number) -> Result<u64, Cause>
    ensures value { result ≡ number_in what word.now }
    ensures ranged { IfOk result (λ n. (least what ≤ n) × (n ≤ most what)) }
{
    if !is_decimal(word) {
        return Err(Cause::NotANumber(what));
    }
    decimal(word)
        .filter(|n| (what.least()..=what.most()).contains(n))
        .ok_or(Cause::OutOfRange(what))
}
