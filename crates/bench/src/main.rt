// Reads a script of boxes and of calls on their volumes, and prints what each call answers.
#![tactic(auto)]

use play::play_all;
use script::{Trial, read_line};
use std::alloc::{AllocError, Global};
use std::io;
use std::io::Read;
use std::process::ExitCode;
use thiserror::Error;
use wrong::Wrong;

mod line;
mod pile;
mod play;
mod report;
mod script;
mod setup;
mod spend;
mod stranger;
mod wrong;

// Why the program ends without having played, and what it says then.
#[derive(Debug, Drop, Error)]
enum Stop {
    #[error("bench: line {number}: {wrong}\n")]
    Line { number: usize, wrong: Wrong },
    #[error("bench: {0}\n")]
    Memory(#[from] AllocError),
    #[error("bench: {0}\n")]
    Io(#[from] io::Error),
}

// Text in place of bad UTF-8 is no word of a script, so that its line is told like any other.
fn input(rt: &HostRuntime) -> io::Result<String> {
    let mut bytes = Vec::new(rt.alloc());
    rt.stdin().read_to_end(&mut bytes)?;
    Ok(String::from_utf8_lossy(rt.alloc(), bytes.as_slice())?)
}

fn read_script(heap: Global, text: &str) -> Result<Vec<Trial>, Stop> {
    let mut script = Vec::new(heap);
    for (at, line) in text.lines().enumerate() {
        if let Err(wrong) = read_line(heap, &mut script, line) {
            let number = at.saturating_add(1);
            return Err(Stop::Line { number, wrong });
        }
    }
    Ok(script)
}

// The whole script is read before anything is played, so that a bad line leaves standard output empty.
fn run(rt: &HostRuntime) -> Result<(), Stop> {
    let text = input(rt)?;
    let mut script = read_script(rt.alloc(), text.as_str())?;
    let report = play_all(rt.alloc(), &mut script)?;
    rt.print(report)?;
    Ok(())
}

fn main(rt: HostRuntime) -> ExitCode {
    let Err(stop) = run(&rt) else {
        return ExitCode::SUCCESS;
    };
    match rt.eprint(stop) {
        // Where even the complaint cannot be written, the status still tells.
        Ok(()) | Err(_) => ExitCode::FAILURE,
    }
}
