// A layer for tests: the device below, but for a few blocks that behave badly.
ghost use Rattle.std.specs.Prelude.{◌≡◌};
ghost use Rattle.device.specs.Crooked.{manner_of};
ghost use Rattle.device.specs.Faults.{refused};
ghost use Rattle.device.specs.Zeros.{zeros};

use crate::checks::{check_number, check_read};
use crate::device::Device;
use crate::fault::Fault;
use crate::source::Source;

// The most blocks that are listed; entries past these count for nothing.
const MOST_LISTED: usize = 16;

// How a block behaves badly.
#[derive(Clone, Copy, PartialEq, Eq, Debug)]
pub enum Manner {
    // It refuses reads and writes.
    Refuses,
    // A read flips the lowest bit of its first byte.
    Flips,
    // It takes writes, and keeps its old bytes.
    Keeps,
}

#[derive(Clone, Copy, PartialEq, Eq, Debug)]
pub struct Listed {
    pub block: usize,
    pub manner: Manner,
}

// The device below, with each listed block in its manner. Of two entries for one block the first counts.
#[derive(Drop)]
pub struct Crooked<'a, D> {
    listed: &'a [Listed],
    below: D,
}

impl<'a, D: Source> Crooked<'a, D> {
    ghost use Rattle.device.specs.Crooked.{crooked_by, crooked_meaning, crooked_over};

    pub fn new(listed: &'a [Listed], below: D) -> Crooked<'a, D>
        ensures made { result ≡ crooked_by listed.entry below }
        ensures means { crooked_meaning D.Source.own result ≡ crooked_over listed.now (D.meaning below) }
    {
        Crooked { listed, below }
    }
}

impl<D: Source> Source for Crooked<'_, D> {
    ghost use Rattle.device.specs.Crooked.{crooked_meaning, crooked_reads};
    ghost use Rattle.device.specs.CrookedLaws.{crooked_keeps};

    ghost meaning = { crooked_meaning D.Source.own };

    ghost reads = { crooked_reads D.Source.own };

    fn blocks(&self) -> usize {
        self.below.blocks()
    }

    fn ways(&self) -> usize {
        self.below.ways()
    }

    fn read(&mut self, way: usize, number: usize, area: &mut [u8; 512]) -> Result<(), Fault> {
        check_read(self.blocks(), self.ways(), way, number, area)?;
        let manner = manner_of(self.listed, number);
        if let Some(Manner::Refuses) = manner {
            return refuse_read(number, area);
        }
        self.below.read(way, number, area).map_err(Fault::higher)?;
        if let Some(Manner::Flips) = manner {
            area[0] ^= 1;
        }
        Ok(())
    }

    ghost keeps = { crooked_keeps D.Source.own D.keeps };
}

impl<D: Device> Device for Crooked<'_, D> {
    ghost use Rattle.device.specs.Crooked.{crooked_writes, crooked_settles};
    ghost use Rattle.device.specs.CrookedLaws.{crooked_keeps_writes};

    ghost writes = { crooked_writes D.Source.own D.Device.own };

    ghost settles = { crooked_settles D.Source.own D.Device.own };

    fn write(&mut self, number: usize, block: &[u8; 512]) -> Result<(), Fault> {
        check_number(self.blocks(), number)?;
        match manner_of(self.listed, number) {
            Some(Manner::Refuses) => Err(Fault::refused(number)),
            Some(Manner::Keeps) => Ok(()),
            Some(Manner::Flips) | None => {
                self.below.write(number, block).map_err(Fault::higher)?;
                Ok(())
            }
        }
    }

    fn settle(&mut self) -> bool {
        self.below.settle()
    }

    ghost keeps_writes = { crooked_keeps_writes D.Source.own D.Device.own D.keeps_writes };
}

fn manner_of(listed: &[Listed], number: usize) -> Option<Manner>
    ensures { result ≡ manner_of listed.now number }
{
    listed
        .iter()
        .take(MOST_LISTED)
        .find(|entry| entry.block == number)
        .map(|entry| entry.manner)
}

// A refused read, which blanks the area.
#[tactic(auto, unfolding(crate::specs::Zeros::zeros))]
fn refuse_read(number: usize, area: &mut [u8; 512]) -> Result<(), Fault>
    ensures answer { result ≡ Err (refused number) }
    ensures blank { area.new ≡ zeros }
{
    *area = [0; 512];
    Err(Fault::refused(number))
}
