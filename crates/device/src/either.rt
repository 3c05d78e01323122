// One of two devices, for a program that chooses its pile when it runs. It is no layer: a fault passes as it is.
use crate::device::Device;
use crate::fault::Fault;
use crate::source::Source;

#[derive(Drop)]
pub enum Either<A, B> {
    First(A),
    Second(B),
}

impl<A: Source, B: Source> Source for Either<A, B> {
    ghost use Rattle.device.specs.Either.{either_meaning, either_reads};
    ghost use Rattle.device.specs.EitherLaws.{either_keeps};

    ghost meaning = { either_meaning A.Source.own B.Source.own };

    ghost reads = { either_reads A.Source.own B.Source.own };

    fn blocks(&self) -> usize {
        match self {
            Either::First(a) => a.blocks(),
            Either::Second(b) => b.blocks(),
        }
    }

    fn ways(&self) -> usize {
        match self {
            Either::First(a) => a.ways(),
            Either::Second(b) => b.ways(),
        }
    }

    fn read(&mut self, way: usize, number: usize, area: &mut [u8; 512]) -> Result<(), Fault> {
        match self {
            Either::First(a) => a.read(way, number, area),
            Either::Second(b) => b.read(way, number, area),
        }
    }

    ghost keeps = { either_keeps A.Source.own B.Source.own A.keeps B.keeps };
}

impl<A: Device, B: Device> Device for Either<A, B> {
    ghost use Rattle.device.specs.Either.{either_writes, either_settles};
    ghost use Rattle.device.specs.EitherLaws.{either_keeps_writes};

    ghost writes = { either_writes A.Device.own B.Device.own };

    ghost settles = { either_settles A.Device.own B.Device.own };

    fn write(&mut self, number: usize, block: &[u8; 512]) -> Result<(), Fault> {
        match self {
            Either::First(a) => a.write(number, block),
            Either::Second(b) => b.write(number, block),
        }
    }

    fn settle(&mut self) -> bool {
        match self {
            Either::First(a) => a.settle(),
            Either::Second(b) => b.settle(),
        }
    }

    ghost keeps_writes = { either_keeps_writes A.Source.own B.Source.own A.Device.own B.Device.own A.keeps_writes B.keeps_writes };
}
