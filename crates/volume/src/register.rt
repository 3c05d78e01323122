// The one thing that is trusted.
ghost use Rattle.std.specs.Prelude.{◌≡◌, ◌≤◌, MatchResult, replicate};

use crate::refusal::Refusal;
use geometry::MOST;

// The trusted register of a volume.
#[derive(Clone, Copy)]
pub struct Register {
    // The number of data blocks; 0 before any format.
    pub blocks: usize,
    // The kind of the volume's hash.
    pub kind: u8,
    // The root that was kept last.
    pub root: [u8; 32],
    ghost most: { blocks ≤ 4096 },
    // Formatted under some hash, and a hash's kind is 1 at least.
    ghost named: { 1 ≤ blocks → 1 ≤ kind },
}

impl Register {
    ghost use Rattle.volume.specs.Parts.{Holds, MayHold};
    ghost use Rattle.volume.specs.Refusals.{plain, reason};

    // Never formatted.
    pub fn blank() -> Register
        ensures { Holds result 0 0 (replicate 32 0) }
    {
        Register {
            blocks: 0,
            kind: 0,
            root: [0; 32],
        }
    }

    pub fn from_parts(blocks: usize, kind: u8, root: [u8; 32]) -> Result<Register, Refusal>
        ensures { MatchResult result (λ r. MayHold blocks kind × Holds r blocks kind root) (λ e. (reason e ≡ plain 25) × (MayHold blocks kind → ⊥)) }
    {
        if (1..=MOST).contains(&blocks) && kind > 0 {
            Ok(Register { blocks, kind, root })
        } else {
            Err(Refusal::WrongParts)
        }
    }
}
