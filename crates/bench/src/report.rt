// What is printed of answers, areas, registers and cards.
ghost use Rattle.std.specs.Prelude.{◌≡◌, Some};
ghost use Rattle.bench.specs.Report.{answer_text, call_text, digest_of};

use digest::sha256::sha256;
use std::alloc::AllocError;
use std::fmt;
use volume::entry::{Call, Entry};
use volume::refusal::Refusal;
use volume::register::Register;

// The first eight bytes of the SHA-256 of an area or a card.
#[derive(Clone, Copy)]
pub(crate) struct Digest([u8; 8]);

impl Digest {
    pub(crate) fn of(bytes: &[u8]) -> Digest
        ensures { result.0 ≡ digest_of bytes.now }
    {
        let mut first = [0; 8];
        first.copy_from_slice(&sha256(bytes)[..8]);
        Digest(first)
    }
}

impl fmt::Display for Digest {
    fn fmt<W: fmt::Write>(&self, f: &mut fmt::Formatter<W>) -> fmt::Result {
        for byte in &self.0 {
            write!(f, "{byte:02x}")?;
        }
        Ok(())
    }
}

// A call in the words of the script.
#[derive(Clone, Copy)]
struct Words(Call);

impl fmt::Display for Words {
    ghost output = { λ w. Some (call_text w.0) };

    fn fmt<W: fmt::Write>(&self, f: &mut fmt::Formatter<W>) -> fmt::Result {
        let Words(call) = *self;
        match call {
            Call::Open => f.write_str("open"),
            Call::Begin { place } => write!(f, "begin {place}"),
            Call::Read { number } => write!(f, "read {number}"),
            Call::Write { place, number } => write!(f, "write {place} {number}"),
            Call::Keep { place } => write!(f, "keep {place}"),
            Call::Leave { place } => write!(f, "leave {place}"),
            Call::Shut => f.write_str("shut"),
        }
    }
}

// An answer, with all that a refusal carries.
#[derive(Clone, Copy)]
pub(crate) struct Answer(pub(crate) Result<(), Refusal>);

impl fmt::Display for Answer {
    ghost use Rattle.volume.specs.Refusals.{told};

    ghost output = { λ a. Some (answer_text (told a.0)) };

    fn fmt<W: fmt::Write>(&self, f: &mut fmt::Formatter<W>) -> fmt::Result {
        let Answer(Err(refusal)) = *self else {
            return f.write_str("accepted");
        };
        write!(f, "refused {}", refusal.number())?;
        let Some(failed) = refusal.failed() else {
            return Ok(());
        };
        let side = failed.side.number();
        let level = failed.level;
        let block = failed.block;
        let (cause, place, climbed) = failed.fault_numbers();
        write!(
            f,
            ", side {side}, level {level}, block {block}, fault {cause}, {place}, {climbed}"
        )
    }
}

// The line of a call that was made or left out.
pub(crate) fn add_entry(entry: &Entry, report: &mut String) -> Result<(), AllocError> {
    write!(report, "{}: ", Words(entry.call))?;
    match entry.answer {
        Some(answer) => write!(report, "{}", Answer(answer))?,
        None => write!(report, "left out")?,
    }
    match entry.call {
        Call::Read { .. } => add_areas(&entry.block, &entry.log, report),
        Call::Write { .. } => writeln!(report, ", record {}", Digest::of(&entry.log)),
        _ => writeln!(report),
    }
}

// What a read left in its areas, to the end of the line.
pub(crate) fn add_areas(block: &[u8], log: &[u8], report: &mut String) -> Result<(), AllocError> {
    writeln!(
        report,
        ", block {}, record {}",
        Digest::of(block),
        Digest::of(log)
    )
}

pub(crate) fn add_register(register: &Register, report: &mut String) -> Result<(), AllocError> {
    let blocks = register.blocks;
    let kind = register.kind;
    write!(report, "register: {blocks} blocks, kind {kind}, root ")?;
    for byte in &register.root {
        write!(report, "{byte:02x}")?;
    }
    writeln!(report)
}
