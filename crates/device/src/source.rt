// A source of blocks, in one or several ways.
ghost use Rattle.std.specs.Prelude.{◌≡◌, ℕ, List, Result, IsErr};
ghost use Rattle.device.specs.declared.fault.Fault.{Fault};
ghost use Rattle.device.specs.Meaning.{Meaning, KeepsReads, came};
ghost use Rattle.device.specs.Zeros.{zeros};

use crate::fault::Fault;

// The most blocks that a source has.
pub const MOST_BLOCKS: usize = 65536;

// The most ways that a source has.
pub const MOST_WAYS: usize = 8;

// Where blocks are read from: a number of blocks, each in a number of ways.
pub trait Source {
    // What this state means: the counts, the cells, and whether it is sound and clear.
    ghost meaning: { Self → Meaning };

    // A step of `read`: from a state, by a way and a number, to an answer and a state.
    ghost reads: { Self → ℕ → ℕ → Result (List ℕ) Fault → Self → Type 0 };

    // The counts never change, but no layer keeps them: they are worked out from those below, a comparison or a sum for each layer.
    fn blocks(&self) -> usize
        ensures { result ≡ (meaning self.now).blocks };

    fn ways(&self) -> usize
        ensures { result ≡ (meaning self.now).ways };

    // Fills the area with a block as one way has it. It takes `&mut self`, since a driver may have to poke its card for it.
    fn read(&mut self, way: usize, number: usize, area: &mut [u8; 512]) -> Result<(), Fault>
        ensures step { reads self.old way number (came result area.new) self.new }
        ensures blank { IsErr result → area.new ≡ zeros };

    // The law: what such steps may answer, and that the meaning stands.
    ghost keeps: { KeepsReads meaning reads };
}
