// Plays one list of commands on piles of offset, mirror and cache in six orders, which all have to give the same answers.
#![tactic(auto)]

use command::Command;
use device::device::Device;
use device::memory::Memory;
use order::Order;
use play::{Contents, play};
use std::alloc::{AllocError, Global};
use std::io;
use std::io::Read;
use std::process::ExitCode;
use thiserror::Error;

mod command;
mod order;
mod play;

// The blocks of a card.
const BLOCKS: usize = 16;

type Card = [[u8; 512]; BLOCKS];

// Why the program ends without having played, and what it says then.
#[derive(Debug, Drop, Error)]
enum Stop {
    #[error("piles: line {number} is no command: {line:?}\n")]
    NoCommand { number: usize, line: String },
    #[error("piles: {0}\n")]
    Memory(#[from] AllocError),
    #[error("piles: {0}\n")]
    Io(#[from] io::Error),
}

// Text in place of bad UTF-8 is no command, so that its line is told like any other.
fn input(rt: &HostRuntime) -> io::Result<String> {
    let mut bytes = Vec::new(rt.alloc());
    rt.stdin().read_to_end(&mut bytes)?;
    Ok(String::from_utf8_lossy(rt.alloc(), bytes.as_slice())?)
}

fn commands(alloc: Global, text: &str) -> Result<Vec<Command>, Stop> {
    let mut commands = Vec::new(alloc);
    for (at, line) in text.lines().enumerate() {
        let Some(command) = Command::of_line(line) else {
            return Err(Stop::NoCommand {
                number: at.saturating_add(1),
                line: line.to_string(alloc)?,
            });
        };
        commands.push(command).map_err(AllocError::from)?;
    }
    Ok(commands)
}

// A card whose first block is filled with this byte, the next with the next, and so on; its last byte is 0.
fn card(first: u8) -> Card {
    let mut card = [[0; 512]; BLOCKS];
    for (block, byte) in card.iter_mut().zip(first..=u8::MAX) {
        *block = [byte; 512];
    }
    card[BLOCKS - 1][511] = 0;
    card
}

fn report_card(name: &str, card: &Card, report: &mut String) -> Result<(), AllocError> {
    write!(report, "{name}")?;
    for (at, block) in card.iter().enumerate() {
        let before = if at == 0 { ": " } else { ", " };
        let contents = Contents::of_block(block);
        write!(report, "{before}{contents}")?;
    }
    writeln!(report)
}

// Plays the commands on two cards that are piled in this order, and puts back what the pile holds. The cards are of any type, since
// the check does not cover a type argument that has both a cache and a `Memory` in it.
fn play_on<A: Device + Drop, B: Device + Drop>(
    order: Order,
    first: A,
    second: B,
    commands: &[Command],
    report: &mut String,
) -> Result<(), AllocError> {
    writeln!(report, "{order}")?;
    let mut pile = order.over(first, second);
    play(&mut pile, commands, report)?;
    pile.settle();
    Ok(())
}

// Plays the commands on new cards, and reports how these stand afterwards.
fn report_order(order: Order, commands: &[Command], report: &mut String) -> Result<(), AllocError> {
    let (mut first, mut second) = (card(100), card(200));
    {
        let first = Memory::new(first.as_flattened_mut());
        let second = Memory::new(second.as_flattened_mut());
        play_on(order, first, second, commands, report)?;
    }
    report_card("first card", &first, report)?;
    report_card("second card", &second, report)
}

fn report(alloc: Global, commands: &[Command]) -> Result<String, AllocError> {
    let mut report = String::new(alloc);
    for order in Order::ALL {
        report_order(order, commands, &mut report)?;
    }
    Ok(report)
}

// All commands are read before anything is played, so that a bad line leaves standard output empty.
fn run(rt: &HostRuntime) -> Result<(), Stop> {
    let text = input(rt)?;
    let commands = commands(rt.alloc(), text.as_str())?;
    let report = report(rt.alloc(), commands.as_slice())?;
    rt.print(report)?;
    Ok(())
}

fn main(rt: HostRuntime) -> ExitCode {
    let Err(stop) = run(&rt) else {
        return ExitCode::SUCCESS;
    };
    match rt.eprint(stop) {
        // Where even the complaint cannot be written, the status still tells.
        Ok(()) | Err(_) => ExitCode::FAILURE,
    }
}
