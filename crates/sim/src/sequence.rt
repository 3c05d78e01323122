// The sequence number of a SIM.
ghost use Rattle.std.specs.Prelude.{◌≡◌, ◌^◌, ◌<◌, ◌≤◌, MatchOption};

// A sequence number has 48 bits.
#[derive(Clone, Copy, PartialEq, Eq, Debug)]
pub struct Sequence {
    pub value: u64,
    ghost small: { value < 2 ^ 48 },
}

impl Sequence {
    // The largest sequence number, 2^48 - 1.
    pub const MAX: u64 = (1 << 48) - 1;

    // The sequence number `value`, or `None` where it has more than 48 bits: one way to fail, as at the library's `NonZero::new`.
    pub fn new(value: u64) -> Option<Sequence>
        ensures { MatchOption result (2 ^ 48 ≤ value) (λ s. (value < 2 ^ 48) × (s.value ≡ value)) }
    {
        if value > Self::MAX {
            return None;
        }
        Some(Sequence { value })
    }
}
