// What became of the calls of a list.
ghost use Rattle.std.specs.Prelude.{◌≡◌, ◌+◌, ◌<◌, ◌++◌, IfOk, OnOk, IsTrue, Some, Ok, [], slice_get, string_bytes};
ghost use Rattle.trial.specs.Drill.{Tallied, counted, refused, refused_lines, refused_words, right};
ghost use Rattle.trial.specs.Lists.{AllAccepted};

use crate::stuck::Stuck;
use std::alloc::{AllocError, Global};
use std::fmt;
use volume::entry::{Call, Entry};
use volume::refusal::Refusal;

// A call that was made and accepted, or else why the trial is broken off.
fn accepted(entry: &Entry) -> Result<(), Stuck>
    ensures { OnOk result (entry.now.answer ≡ Some (Ok tt)) }
{
    let call = entry.call;
    match entry.answer {
        Some(Ok(())) => Ok(()),
        Some(Err(refusal)) => Err(Stuck::Refused { call, refusal }),
        None => Err(Stuck::NotMade(call)),
    }
}

pub(crate) fn all_accepted(list: &[Entry]) -> Result<(), Stuck>
    ensures { OnOk result (AllAccepted list.now) }
{
    for entry in list {
        accepted(entry)?;
    }
    Ok(())
}

// Whether this is the written block of that number.
fn is_written(written: &[[u8; 512]], number: usize, area: &[u8]) -> bool
    ensures { IsTrue result → slice_get written.now number ≡ Some area.now }
{
    let Some(block) = written.get(number) else {
        return false;
    };
    let block = block.as_slice();
    area == block
}

// A read that was refused.
#[derive(Clone, Copy)]
pub(crate) struct RefusedRead {
    number: usize,
    refusal: Refusal,
}

// How many reads gave the block that was written, and those that were refused.
#[derive(Drop)]
pub(crate) struct Tally {
    pub(crate) right: usize,
    pub(crate) refused: Vec<RefusedRead>,
}

impl fmt::Display for RefusedRead {
    ghost output = { λ r. Some (refused_words r) };

    fn fmt<W: fmt::Write>(&self, f: &mut fmt::Formatter<W>) -> fmt::Result {
        let number = self.number;
        let refusal = self.refusal.number();
        let Some(failed) = self.refusal.failed() else {
            return write!(f, "block {number}: refusal {refusal}");
        };
        let side = failed.side.number();
        let level = failed.level;
        let block = failed.block;
        let (cause, place, climbed) = failed.fault_numbers();
        write!(
            f,
            "block {number}: refusal {refusal}, side {side}, level {level}, block {block}, fault {cause}, {place}, {climbed}"
        )
    }
}

impl Tally {
    fn new(heap: Global) -> Tally
        ensures { (result.right ≡ 0) × (result.refused.items ≡ []) }
    {
        Tally {
            right: 0,
            refused: Vec::new(heap),
        }
    }

    // Takes in what a call answered. None but reads may be refused, and an accepted block that is not as written is no part of any tally.
    fn take(&mut self, entry: &Entry, written: &[[u8; 512]]) -> Result<(), Stuck>
        requires { self.old.right < usize.MAX }
        ensures counted { OnOk result (self.new.right ≡ self.old.right + counted entry.now.call entry.now.answer) }
        ensures refused { OnOk result (self.new.refused.items ≡ self.old.refused.items ++ refused entry.now.call entry.now.answer) }
        ensures right { OnOk result (right written.now entry.now.call entry.now.answer entry.now.block.items) }
    {
        let Call::Read { number } = entry.call else {
            return accepted(entry);
        };
        if let Some(Err(refusal)) = entry.answer {
            let read = RefusedRead { number, refusal };
            self.refused.push(read).map_err(AllocError::from)?;
            return Ok(());
        }
        accepted(entry)?;
        if !is_written(written, number, &entry.block) {
            return Err(Stuck::WrongBlock { number });
        }
        self.right += 1;
        Ok(())
    }

    // The reads of a list, against the blocks that were written.
    pub(crate) fn of(heap: Global, list: &[Entry], written: &[[u8; 512]]) -> Result<Tally, Stuck>
        ensures { IfOk result (λ t. Tallied written.now list.now t) }
    {
        let mut tally = Tally::new(heap);
        for entry in list {
            tally.take(entry, written)?;
        }
        Ok(tally)
    }

    // Where no read may be refused.
    pub(crate) fn all_right(&self) -> Result<(), Stuck>
        ensures { OnOk result (self.now.refused.items ≡ []) }
    {
        match self.refused.first() {
            Some(read) => Err(Stuck::Refused {
                call: Call::Read {
                    number: read.number,
                },
                refusal: read.refusal,
            }),
            None => Ok(()),
        }
    }

    // A line for each refused read.
    pub(crate) fn add_refused(&self, report: &mut String) -> Result<(), AllocError>
        ensures { OnOk result (string_bytes report.new ≡ string_bytes report.old ++ refused_lines self.now.refused.items) }
    {
        for read in &self.refused {
            writeln!(report, "{read}")?;
        }
        Ok(())
    }
}
