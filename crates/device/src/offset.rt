// The layer that begins at a start.
use crate::checks::{check_number, check_read};
use crate::device::Device;
use crate::fault::Fault;
use crate::source::Source;

// `count` blocks of the source below from block `start` on, or as many of them as there are.
#[derive(Drop)]
pub struct Offset<D> {
    start: usize,
    count: usize,
    below: D,
}

impl<D: Source> Offset<D> {
    ghost use Rattle.std.specs.Prelude.{◌≡◌};
    ghost use Rattle.device.specs.Offset.{offset_at, offset_meaning, offset_over};

    pub fn new(start: usize, count: usize, below: D) -> Offset<D>
        ensures made { result ≡ offset_at start count below }
        ensures means { offset_meaning D.Source.own result ≡ offset_over start count (D.meaning below) }
    {
        Offset {
            start,
            count,
            below,
        }
    }
}

impl<D: Source> Source for Offset<D> {
    ghost use Rattle.device.specs.Offset.{offset_meaning, offset_reads};
    ghost use Rattle.device.specs.OffsetLaws.{offset_keeps};

    ghost meaning = { offset_meaning D.Source.own };

    ghost reads = { offset_reads D.Source.own };

    fn blocks(&self) -> usize {
        self.count
            .min(self.below.blocks().saturating_sub(self.start))
    }

    fn ways(&self) -> usize {
        self.below.ways()
    }

    fn read(&mut self, way: usize, number: usize, area: &mut [u8; 512]) -> Result<(), Fault> {
        check_read(self.blocks(), self.ways(), way, number, area)?;
        self.below
            .read(way, self.start + number, area)
            .map_err(Fault::higher)?;
        Ok(())
    }

    ghost keeps = { offset_keeps D.Source.own D.keeps };
}

impl<D: Device> Device for Offset<D> {
    ghost use Rattle.device.specs.Offset.{offset_writes, offset_settles};
    ghost use Rattle.device.specs.OffsetLaws.{offset_keeps_writes};

    ghost writes = { offset_writes D.Source.own D.Device.own };

    ghost settles = { offset_settles D.Source.own D.Device.own };

    fn write(&mut self, number: usize, block: &[u8; 512]) -> Result<(), Fault> {
        check_number(self.blocks(), number)?;
        self.below
            .write(self.start + number, block)
            .map_err(Fault::higher)?;
        Ok(())
    }

    fn settle(&mut self) -> bool {
        self.below.settle()
    }

    ghost keeps_writes = { offset_keeps_writes D.Source.own D.Device.own D.keeps_writes };
}
