// The layer that holds up to eight written blocks back.
use crate::checks::{check_number, check_read};
use crate::device::Device;
use crate::fault::Fault;
use crate::lines::{LINES, Lines, Slot};
use crate::source::Source;

// Blocks that are written stay in the lines until they are evicted or settled. What is held when a cache is let go is lost.
#[derive(Drop)]
pub struct Cache<D> {
    lines: Lines,
    below: D,
}

impl<D: Source> Cache<D> {
    ghost use Rattle.std.specs.Prelude.{◌≡◌, replicate, None};
    ghost use Rattle.device.specs.Cache.{cache_below, cache_lines, cache_meaning, cache_over};

    pub fn new(below: D) -> Cache<D>
        ensures lines { cache_lines result ≡ replicate 8 None }
        ensures below { cache_below result ≡ below }
        ensures means { cache_meaning D.Source.own result ≡ cache_over (replicate 8 None) (D.meaning below) }
    {
        Cache {
            lines: Lines::empty(),
            below,
        }
    }
}

impl<D: Source> Source for Cache<D> {
    ghost use Rattle.device.specs.Cache.{cache_meaning, cache_reads};
    ghost use Rattle.device.specs.CacheLaws.{cache_keeps};

    ghost meaning = { cache_meaning D.Source.own };

    ghost reads = { cache_reads D.Source.own };

    fn blocks(&self) -> usize {
        self.below.blocks()
    }

    fn ways(&self) -> usize {
        self.below.ways()
    }

    fn read(&mut self, way: usize, number: usize, area: &mut [u8; 512]) -> Result<(), Fault> {
        check_read(self.blocks(), self.ways(), way, number, area)?;
        if let Some(line) = self.lines.find(number) {
            *area = line.bytes;
        } else {
            self.below.read(way, number, area).map_err(Fault::higher)?;
        }
        Ok(())
    }

    ghost keeps = { cache_keeps D.Source.own D.keeps };
}

impl<D: Device> Device for Cache<D> {
    ghost use Rattle.device.specs.Cache.{cache_writes, CacheSettle};
    ghost use Rattle.device.specs.CacheLaws.{cache_keeps_writes};

    ghost writes = { cache_writes D.Source.own D.Device.own };

    ghost settles = { CacheSettle D.Source.own D.Device.own };

    fn write(&mut self, number: usize, block: &[u8; 512]) -> Result<(), Fault> {
        check_number(self.blocks(), number)?;
        self.hold(number, block);
        Ok(())
    }

    fn settle(&mut self) -> bool {
        self.put_back();
        let clear_below = self.below.settle();
        self.lines.none_held() && clear_below
    }

    ghost keeps_writes = { cache_keeps_writes D.Source.own D.Device.own D.keeps D.keeps_writes };
}

impl<D: Device> Cache<D> {
    ghost use Rattle.std.specs.Prelude.{◌≡◌, ◌<◌, length, set, Some, Result};
    ghost use Rattle.device.specs.declared.fault.Fault.{Fault};
    ghost use Rattle.device.specs.declared.lines.Line.{Line};
    ghost use Rattle.device.specs.Cache.{CacheWrite, LineBack, PutBack, cache_meaning};
    ghost use Rattle.device.specs.Lines.{NoLineOf, filled, line};
    ghost use Rattle.device.specs.Meaning.{Written};

    // The block goes to the line that is for it.
    fn hold(&mut self, number: usize, block: &[u8; 512])
        requires { number < (D.meaning self.old.below).blocks }
        ensures step { CacheWrite D.Source.own D.Device.own self.old number block.now self.new }
        ensures cells { Written (cache_meaning D.Source.own self.old) number block.now (Ok tt) (cache_meaning D.Source.own self.new) }
    {
        match self.lines.slot_for(number) {
            Slot::Held(at) => self.lines.rewrite(at, block),
            Slot::Empty(at) => self.lines.fill(at, number, block),
            Slot::Least(at) => self.evict(at, number, block),
        }
    }

    // The line's block goes below and makes room. If it is refused there, it is dropped all the same: no sure cell is lost by that.
    fn evict(&mut self, at: usize, number: usize, block: &[u8; 512])
        requires inside { at < length self.old.lines.lines }
        requires held_by_no_line { NoLineOf self.old.lines.lines number }
        ensures lines { self.new.lines.lines ≡ set self.old.lines.lines at (Some (filled number block.now)) }
        ensures below { (a : Line) → line self.old.lines.lines at ≡ Some a → ((answer : Result Unit Fault) × D.writes self.old.below a.number a.bytes answer self.new.below) }
    {
        if let Some(line) = self.lines.get(at) {
            let _ = self.below.write(line.number, &line.bytes);
        }
        self.lines.fill(at, number, block);
    }

    // Each line's block goes below.
    fn put_back(&mut self)
        ensures { PutBack D.Source.own D.Device.own self.old.lines.lines self.old.below (length self.old.lines.lines) self.new.lines.lines self.new.below }
    {
        for at in 0..LINES {
            self.put_line_back(at);
        }
    }

    // The line's block goes below. If it is accepted there, it is no longer held.
    fn put_line_back(&mut self, at: usize)
        requires { at < 8 }
        ensures { LineBack D.Source.own D.Device.own self.old.lines.lines self.old.below at self.new.lines.lines self.new.below }
    {
        let Some(line) = self.lines.get(at) else {
            return;
        };
        if self.below.write(line.number, &line.bytes).is_ok() {
            self.lines.empty_line(at);
        }
    }
}
