// What has been read of a sheet, one line after the other.
ghost use Rattle.std.specs.Prelude.{◌≡◌, Some, is_some, OnOk, OnErr};
ghost use Rattle.subscriber.specs.Sheet.{allowed};

use crate::block_count::BlockCount;
use crate::cause::{Cause, Header};
use crate::fault::Fault;
use crate::item::{Item, read_line};
use crate::sheet::Sheet;
use crate::tray::{HashChoice, TrayNumber};
use sim::Sim;
use std::alloc::Global;
use std::marker::Model;

// All of the headers.
#[derive(Clone, Copy)]
struct Heading {
    tray: TrayNumber,
    hash: HashChoice,
    blocks: BlockCount,
}

// The headers and SIMs that were read so far.
#[derive(Drop)]
pub(crate) struct Reading {
    tray: Option<TrayNumber>,
    hash: Option<HashChoice>,
    blocks: Option<BlockCount>,
    sims: Vec<Sim>,
}

// Seen as the draft in plain numbers; there is a block for each SIM.
impl Model for Reading {
    ghost use Rattle.std.specs.Prelude.{◌≤◌, map, vec_len};
    ghost use Rattle.std.specs.Option.{ForSome, option_map};
    ghost use Rattle.subscriber.specs.Plain.{entry_of};
    ghost use Rattle.subscriber.specs.Sheet.{Draft};

    ghost Value = { Draft };

    ghost view = { λ r. record {
      tray = option_map (λ t. t.value) r.tray;
      hash = r.hash;
      blocks = option_map (λ b. b.value) r.blocks;
      sims = map entry_of r.sims.items;
    } };

    ghost invariant = { λ r. ForSome r.blocks (λ b. vec_len r.sims ≤ b.value) };
}

// A header stands before the first SIM, and only once.
fn fill<T: Copy>(slot: &mut Option<T>, header: Header, sims: usize, value: T) -> Result<(), Cause>
    ensures answer { result ≡ allowed header (is_some slot.old) sims }
    ensures filled { OnOk result (slot.new ≡ Some value) }
    ensures kept { OnErr result (slot.new ≡ slot.old) }
{
    if sims > 0 {
        return Err(Cause::Late(header));
    }
    if slot.is_some() {
        return Err(Cause::Repeated(header));
    }
    *slot = Some(value);
    Ok(())
}

impl Reading {
    ghost use Rattle.std.specs.Prelude.{◌≡◌, OnErr};
    ghost use Rattle.subscriber.specs.Answer.{whole_with, plain_sheet, Stepped};
    ghost use Rattle.subscriber.specs.Items.{with_ok};
    ghost use Rattle.subscriber.specs.Plain.{entry_of, plain};
    ghost use Rattle.subscriber.specs.Sheet.{empty, whole, next, add, after_line};

    // Before the first line.
    pub(crate) fn new(heap: Global) -> Reading
        ensures { result ≡ empty }
    {
        Reading {
            tray: None,
            hash: None,
            blocks: None,
            sims: Vec::new(heap),
        }
    }

    // All of the headers, or the first that is missing.
    fn heading(&self) -> Result<Heading, Cause>
        ensures { with_ok (whole_with self.now.sims) result ≡ whole self.now }
    {
        let tray = self.tray.ok_or(Cause::Missing(Header::Tray))?;
        let hash = self.hash.ok_or(Cause::Missing(Header::Hash))?;
        let blocks = self.blocks.ok_or(Cause::Missing(Header::Blocks))?;
        Ok(Heading { tray, hash, blocks })
    }

    // Takes a line `sim`.
    fn add_sim(&mut self, sim: Sim) -> Result<(), Fault>
        ensures step { Stepped (add self.old (entry_of sim)) result self.new }
        ensures kept { OnErr result (self.new ≡ self.old) }
    {
        let heading = self.heading()?;
        if self.sims.len() >= usize::from(heading.blocks.value) {
            return Err(Fault::Refused(Cause::TooManySims));
        }
        self.sims.push(sim)?;
        Ok(())
    }

    // Takes what a line says.
    fn take_item(&mut self, item: Item) -> Result<(), Fault>
        ensures step { Stepped (next self.old (plain item)) result self.new }
        ensures kept { OnErr result (self.new ≡ self.old) }
    {
        let sims = self.sims.len();
        match item {
            Item::Nothing => {}
            Item::Tray(tray) => fill(&mut self.tray, Header::Tray, sims, tray)?,
            Item::Hash(hash) => fill(&mut self.hash, Header::Hash, sims, hash)?,
            Item::Blocks(blocks) => fill(&mut self.blocks, Header::Blocks, sims, blocks)?,
            Item::Sim(sim) => self.add_sim(sim)?,
        }
        Ok(())
    }

    // Takes one line more.
    pub(crate) fn take_line(&mut self, line: &[u8]) -> Result<(), Fault>
        ensures step { Stepped (after_line self.old line.now) result self.new }
        ensures kept { OnErr result (self.new ≡ self.old) }
    {
        self.take_item(read_line(line)?)
    }

    // The sheet after its last line.
    pub(crate) fn finish(self) -> Result<Sheet, Cause>
        ensures { with_ok plain_sheet result ≡ whole self }
    {
        let Heading { tray, hash, blocks } = self.heading()?;
        Ok(Sheet {
            tray,
            hash,
            blocks,
            sims: self.sims,
        })
    }
}
