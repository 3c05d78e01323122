// The layer that holds two devices as one, each with ways of its own.
use crate::checks::{check_number, check_read};
use crate::device::Device;
use crate::fault::Fault;
use crate::source::{MOST_WAYS, Source};

// The first's ways and then the second's, over the blocks that both have. A write goes to both, and one that takes it is enough.
#[derive(Drop)]
pub struct Mirror<A, B> {
    first: A,
    second: B,
}

impl<A: Source, B: Source> Mirror<A, B> {
    ghost use Rattle.std.specs.Prelude.{◌≡◌};
    ghost use Rattle.device.specs.Mirror.{mirror_meaning, mirror_of, mirror_over};

    pub fn new(first: A, second: B) -> Mirror<A, B>
        ensures made { result ≡ mirror_of first second }
        ensures means { mirror_meaning A.Source.own B.Source.own result ≡ mirror_over (A.meaning first) (B.meaning second) }
    {
        Mirror { first, second }
    }
}

impl<A: Source, B: Source> Source for Mirror<A, B> {
    ghost use Rattle.device.specs.Mirror.{mirror_meaning, mirror_reads};
    ghost use Rattle.device.specs.MirrorLaws.{mirror_keeps};

    ghost meaning = { mirror_meaning A.Source.own B.Source.own };

    ghost reads = { mirror_reads A.Source.own B.Source.own };

    // None where the two have more ways than a source may have.
    fn blocks(&self) -> usize {
        if self.first.ways() + self.second.ways() > MOST_WAYS {
            0
        } else {
            self.first.blocks().min(self.second.blocks())
        }
    }

    fn ways(&self) -> usize {
        (self.first.ways() + self.second.ways()).min(MOST_WAYS)
    }

    fn read(&mut self, way: usize, number: usize, area: &mut [u8; 512]) -> Result<(), Fault> {
        check_read(self.blocks(), self.ways(), way, number, area)?;
        let firsts = self.first.ways();
        if way < firsts {
            self.first.read(way, number, area).map_err(Fault::higher)?;
        } else {
            self.second
                .read(way - firsts, number, area)
                .map_err(Fault::higher)?;
        }
        Ok(())
    }

    ghost keeps = { mirror_keeps A.Source.own B.Source.own A.keeps B.keeps };
}

impl<A: Device, B: Device> Device for Mirror<A, B> {
    ghost use Rattle.device.specs.Mirror.{mirror_writes, MirrorSettle};
    ghost use Rattle.device.specs.MirrorLaws.{mirror_keeps_writes};

    ghost writes = { mirror_writes A.Source.own B.Source.own A.Device.own B.Device.own };

    ghost settles = { MirrorSettle A.Source.own B.Source.own A.Device.own B.Device.own };

    // Tries both, also where the first has taken it.
    fn write(&mut self, number: usize, block: &[u8; 512]) -> Result<(), Fault> {
        check_number(self.blocks(), number)?;
        let first = self.first.write(number, block);
        let second = self.second.write(number, block);
        match (first, second) {
            (Err(fault), Err(_)) => Err(fault.higher()),
            _ => Ok(()),
        }
    }

    fn settle(&mut self) -> bool {
        let first = self.first.settle();
        let second = self.second.settle();
        first && second
    }

    ghost keeps_writes = { mirror_keeps_writes A.Source.own B.Source.own A.Device.own B.Device.own A.keeps_writes B.keeps_writes };
}
