// The bottom that keeps blocks in bytes lent for writing.
ghost use Rattle.std.specs.Prelude.{◌≡◌, ◌<◌};

use crate::blocks::{copy_block, count_blocks};
use crate::checks::{check_number, check_read};
use crate::device::Device;
use crate::fault::Fault;
use crate::source::Source;

// Whole 512-byte parts of lent bytes, at most 65,536 of them, each a block.
#[derive(Drop)]
pub struct Memory<'a> {
    bytes: &'a mut [u8],
}

impl<'a> Memory<'a> {
    ghost use Rattle.device.specs.Meaning.{Written};
    ghost use Rattle.device.specs.Memory.{HasBytes, IsOver, bytes_meaning, memory_meaning, parts, with_part};

    pub fn new(bytes: &'a mut [u8]) -> Memory<'a>
        ensures over { IsOver bytes.entry result }
        ensures means { memory_meaning result ≡ bytes_meaning bytes.old }
    {
        Memory { bytes }
    }

    // Read through this in a method that takes `&mut self`: of a part of `self.bytes` itself the check would know the length alone there.
    fn bytes(&self) -> &[u8]
        ensures { result.now ≡ self.now.bytes.now }
    {
        self.bytes
    }

    fn put_block(&mut self, number: usize, block: &[u8; 512])
        requires { number < parts self.old.bytes.now }
        ensures step { HasBytes self.old (with_part self.old.bytes.now number block.now) self.new }
        ensures cells { Written (memory_meaning self.old) number block.now (Ok tt) (memory_meaning self.new) }
    {
        let start = 512 * number;
        self.bytes[start..start + 512].copy_from_slice(block);
    }
}

impl Source for Memory<'_> {
    ghost use Rattle.device.specs.Memory.{memory_meaning, memory_reads};
    ghost use Rattle.device.specs.MemoryLaws.{memory_keeps};

    ghost meaning = { memory_meaning };

    ghost reads = { memory_reads };

    fn blocks(&self) -> usize {
        count_blocks(self.bytes)
    }

    fn ways(&self) -> usize {
        1
    }

    fn read(&mut self, way: usize, number: usize, area: &mut [u8; 512]) -> Result<(), Fault> {
        check_read(self.blocks(), self.ways(), way, number, area)?;
        copy_block(self.bytes(), number, area);
        Ok(())
    }

    ghost keeps = { memory_keeps };
}

impl Device for Memory<'_> {
    ghost use Rattle.device.specs.Memory.{memory_writes, memory_settles};
    ghost use Rattle.device.specs.MemoryLaws.{memory_keeps_writes};

    ghost writes = { memory_writes };

    ghost settles = { memory_settles };

    fn write(&mut self, number: usize, block: &[u8; 512]) -> Result<(), Fault> {
        check_number(self.blocks(), number)?;
        self.put_block(number, block);
        Ok(())
    }

    fn settle(&mut self) -> bool {
        true
    }

    ghost keeps_writes = { memory_keeps_writes };
}
