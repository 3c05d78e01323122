// What a pile answers.
ghost use Rattle.piles.specs.Contents.{IsSeen};
ghost use Rattle.piles.specs.Obeys.{Obeys};

use crate::command::Command;
use device::device::Device;
use device::fault::Fault;
use std::alloc::AllocError;
use std::fmt;

// What a pile answers to a command that it does not refuse.
#[derive(Clone, Copy)]
enum Answer {
    Done,
    Block(Contents),
    Clear,
    Held,
}

// A block in short: its first byte, and whether all others are the same.
#[derive(Clone, Copy)]
pub(crate) struct Contents {
    first: u8,
    uniform: bool,
}

// A refusal, in words.
#[derive(Clone, Copy)]
struct Refusal(Fault);

impl Contents {
    pub(crate) fn of_block(block: &[u8; 512]) -> Contents
        ensures { IsSeen block.now result }
    {
        let first = block[0];
        Contents {
            first,
            uniform: block.iter().all(|byte| *byte == first),
        }
    }
}

impl fmt::Display for Contents {
    fn fmt<W: fmt::Write>(&self, f: &mut fmt::Formatter<W>) -> fmt::Result {
        let mixed = if self.uniform { "" } else { " mixed" };
        write!(f, "{}{mixed}", self.first)
    }
}

impl fmt::Display for Answer {
    fn fmt<W: fmt::Write>(&self, f: &mut fmt::Formatter<W>) -> fmt::Result {
        match self {
            Answer::Done => write!(f, "done"),
            Answer::Block(contents) => write!(f, "{contents}"),
            Answer::Clear => write!(f, "clear"),
            Answer::Held => write!(f, "held"),
        }
    }
}

impl fmt::Display for Refusal {
    fn fmt<W: fmt::Write>(&self, f: &mut fmt::Formatter<W>) -> fmt::Result {
        let Refusal(fault) = self;
        let cause = fault.cause.number();
        write!(
            f,
            "refused: cause {cause}, place {}, climbed {}",
            fault.place, fault.climbed
        )
    }
}

// What the pile answers, and means afterwards, is as the laws of a device have it.
fn obey<D: Device>(pile: &mut D, command: Command) -> Result<Answer, Fault>
    ensures { Obeys (D.meaning pile.old) command result (D.meaning pile.new) }
{
    match command {
        Command::Write { number, byte } => {
            pile.write(number, &[byte; 512])?;
            Ok(Answer::Done)
        }
        Command::Read { way, number } => {
            let mut area = [0; 512];
            pile.read(way, number, &mut area)?;
            Ok(Answer::Block(Contents::of_block(&area)))
        }
        Command::Settle => {
            if pile.settle() {
                Ok(Answer::Clear)
            } else {
                Ok(Answer::Held)
            }
        }
    }
}

// Plays the commands in their order, and adds a line for each to the report.
pub(crate) fn play<D: Device>(
    pile: &mut D,
    commands: &[Command],
    report: &mut String,
) -> Result<(), AllocError> {
    for command in commands {
        match obey(pile, *command) {
            Ok(answer) => writeln!(report, "{answer}")?,
            Err(fault) => writeln!(report, "{}", Refusal(fault))?,
        }
    }
    Ok(())
}
