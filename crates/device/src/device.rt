// A device: a source that can also be written.
ghost use Rattle.std.specs.Prelude.{ℕ, List, Bool, Result};
ghost use Rattle.device.specs.declared.fault.Fault.{Fault};
ghost use Rattle.device.specs.Meaning.{Written, KeepsWrites};

use crate::fault::Fault;
use crate::source::Source;

pub trait Device: Source {
    // A step of `write`: from a state, by a number and a block, to an answer and a state.
    ghost writes: { Self → ℕ → List ℕ → Result Unit Fault → Self → Type 0 };

    // A step of `settle`.
    ghost settles: { Self → Bool → Self → Type 0 };

    // Writes one block, to all ways. What becomes of the cells of `Source` stands here besides the step, for whoever reads a contract and
    // not the law.
    fn write(&mut self, number: usize, block: &[u8; 512]) -> Result<(), Fault>
        ensures step { writes self.old number block.now result self.new }
        ensures cells { Written (Self.meaning self.old) number block.now result (Self.meaning self.new) };

    // Puts back whatever is held above the bottom. Answers whether nothing is held now.
    fn settle(&mut self) -> bool
        ensures { settles self.old result self.new };

    // The law: what such steps do to the meaning.
    ghost keeps_writes: { KeepsWrites Self.meaning writes settles };
}
