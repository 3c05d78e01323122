// The bottom that keeps blocks in bytes lent for reading, which nobody can write.
ghost use Rattle.std.specs.Prelude.{◌≡◌};

use crate::blocks::{copy_block, count_blocks};
use crate::checks::check_read;
use crate::fault::Fault;
use crate::source::Source;

// Whole 512-byte parts of lent bytes, at most 65,536 of them, each a block.
#[derive(Clone, Copy)]
pub struct Sealed<'a> {
    bytes: &'a [u8],
}

impl<'a> Sealed<'a> {
    ghost use Rattle.device.specs.Memory.{bytes_meaning};
    ghost use Rattle.device.specs.Sealed.{sealed_bytes, sealed_meaning};

    pub fn new(bytes: &'a [u8]) -> Sealed<'a>
        ensures bytes { sealed_bytes result ≡ bytes.now }
        ensures means { sealed_meaning result ≡ bytes_meaning bytes.now }
    {
        Sealed { bytes }
    }
}

impl Source for Sealed<'_> {
    ghost use Rattle.device.specs.Sealed.{sealed_meaning, sealed_reads};
    ghost use Rattle.device.specs.SealedLaws.{sealed_keeps};

    ghost meaning = { sealed_meaning };

    ghost reads = { sealed_reads };

    fn blocks(&self) -> usize {
        count_blocks(self.bytes)
    }

    fn ways(&self) -> usize {
        1
    }

    fn read(&mut self, way: usize, number: usize, area: &mut [u8; 512]) -> Result<(), Fault> {
        check_read(self.blocks(), self.ways(), way, number, area)?;
        copy_block(self.bytes, number, area);
        Ok(())
    }

    ghost keeps = { sealed_keeps };
}
