// The identity of a SIM: an IMSI or an ICCID.
ghost use Rattle.std.specs.Prelude.{◌≡◌, ◌≤◌, ◌==◌, ◌↔◌, IsTrue, true, false, length, Some, MatchOption};
ghost use Rattle.std.specs.Cmp.Lexicographic.{pointwise};
ghost use Rattle.std.specs.Cmp.Rules.{comparing};
ghost use Rattle.std.specs.Ordering.{on};
ghost use Rattle.std.proofs.Common.{rules};
ghost use Rattle.sim.specs.Identity.{all_zero, digit_run, is_padded, is_identity, padded, unpadded};

use std::fmt;

// How many ASCII digits stand at the front.
fn digit_run(text: &[u8]) -> usize
    ensures value { result ≡ digit_run text.now }
    ensures within { result ≤ length text.now }
{
    text.iter().take_while(|b| b.is_ascii_digit()).count()
}

// Whether each byte is zero.
fn is_zero(bytes: &[u8]) -> bool
    ensures { result ≡ all_zero bytes.now }
{
    bytes.iter().all(|b| *b == 0)
}

// 6 to 20 decimal digits, held as they stand in a block: in ASCII, zeros after the last.
#[derive(Clone, Copy, Eq, Debug)]
pub struct Identity {
    digits: [u8; 20],
    ghost ok: { is_padded digits ≡ true },
}

impl Identity {
    // The identity whose digits are `text`, or `None` where that is not 6 to 20 ASCII digits: one way to fail, as at the library's
    // `NonZero::new`. The digits are copied into a fixed block, without the heap.
    pub fn new(text: &[u8]) -> Option<Identity>
        ensures { MatchOption result (is_identity text.now ≡ false) (λ i. (is_identity text.now ≡ true) × (i.digits ≡ padded text.now)) }
    {
        let n = text.len();
        if n > 20 || digit_run(text) != n {
            return None;
        }
        let mut digits = [0u8; 20];
        digits[0..n].copy_from_slice(text);
        Self::from_padded(digits)
    }

    // The identity that these 20 bytes of a block hold, or `None` where they hold none.
    pub(crate) fn from_padded(digits: [u8; 20]) -> Option<Identity>
        ensures { MatchOption result (is_padded digits ≡ false) (λ i. (is_padded digits ≡ true) × (i.digits ≡ digits)) }
    {
        let n = digit_run(&digits);
        if n < 6 || !is_zero(&digits[n..]) {
            return None;
        }
        Some(Identity { digits })
    }

    // The digits alone, 6 to 20 of them.
    pub(crate) fn digits(&self) -> &[u8]
        ensures { result.now ≡ unpadded self.now.digits }
    {
        let n = digit_run(&self.digits);
        &self.digits[0..n]
    }

    // The 20 bytes of a block: the digits, and zeros after the last.
    pub(crate) fn padded_digits(&self) -> [u8; 20]
        ensures { result ≡ self.now.digits }
    {
        self.digits
    }
}

// Two identities are one where their digits are. By hand, since a derived `==` carries no clause of its own.
impl PartialEq for Identity {
    ghost eq = { on (λ i. i.digits) (pointwise ◌==◌) };

    ghost laws = { Prim.search (comparing, rules) };

    fn eq(&self, other: &Identity) -> bool
        ensures value { result ≡ pointwise ◌==◌ self.now.digits other.now.digits }
        ensures digits { IsTrue result ↔ self.now.digits ≡ other.now.digits }
    {
        self.digits == other.digits
    }
}

// Its digits.
impl fmt::Display for Identity {
    ghost output = { λ i. Some (unpadded i.digits) };

    fn fmt<W: fmt::Write>(&self, f: &mut fmt::Formatter<W>) -> fmt::Result {
        match std::str::from_utf8(self.digits()) {
            Ok(digits) => f.pad(digits),
            Err(_) => Err(fmt::Error),
        }
    }
}
