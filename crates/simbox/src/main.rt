// From a tray's sheet to the label of its box and the images of its two cards, and to the trials of a box in memory.
#![tactic(auto)]

use label::{images, label};
use std::io::Read;
use std::process::ExitCode;
use std::{env, io};
use subscriber::cause::SheetError;
use thiserror::Error;
use trial::failure::Failure;
use trial::{drill, load};

mod card;

const USAGE: &str =
    "usage: simbox label < SHEET              print the label of a tray from its sheet\n       simbox images DATA TREE < SHEET   write its two cards to the files DATA and TREE too\n       simbox load < SHEET               try the tray on a box in memory, down to its label\n       simbox drill < SHEET              the same on cards that go bad\n       simbox --help                     print this\n";

// Why the program ends without having done its work, and what it says then.
#[derive(Debug, Drop, Error)]
enum Stop {
    #[error("{USAGE}")]
    Usage,
    #[error("simbox: {0}\n")]
    Sheet(#[from] SheetError),
    #[error("simbox: {0}\n")]
    Trial(#[from] Failure),
    #[error("simbox: {0}\n")]
    Io(#[from] io::Error),
    // A card that cannot be written.
    #[error("simbox: {name}: {error}\n")]
    Card { name: String, error: io::Error },
    #[error("simbox: DATA and TREE are one name, and the second card would replace the first\n")]
    OneName,
    #[error("simbox: {0}: a card's name may not end in .part or .part.old\n")]
    HalfName(String),
    // A run that was cut off, or one that still writes, has files beside the card.
    #[error("simbox: {0}: {0}.part or {0}.part.old is there already\n")]
    InTheWay(String),
}

// Reads the whole sheet before anything is written, so that a bad one leaves no file and standard output empty.
fn sheet(rt: &HostRuntime) -> io::Result<Vec<u8>> {
    let mut text = Vec::new(rt.alloc());
    rt.stdin().read_to_end(&mut text)?;
    Ok(text)
}

fn print_label(rt: &HostRuntime) -> Result<(), Stop> {
    let text = sheet(rt)?;
    let report = label(rt.alloc(), text.as_slice())?;
    rt.print(report)?;
    Ok(())
}

fn write_images(rt: &HostRuntime, data: String, tree: String) -> Result<(), Stop> {
    let text = sheet(rt)?;
    let images = images(rt.alloc(), text.as_slice())?;
    card::write_both(rt, data, tree, &images)?;
    rt.print(images.report)?;
    Ok(())
}

fn print_load(rt: &HostRuntime) -> Result<(), Stop> {
    let text = sheet(rt)?;
    let report = load(rt.alloc(), text.as_slice())?;
    rt.print(report)?;
    Ok(())
}

fn print_drill(rt: &HostRuntime) -> Result<(), Stop> {
    let text = sheet(rt)?;
    let report = drill(rt.alloc(), text.as_slice())?;
    rt.print(report)?;
    Ok(())
}

// Why the arguments cannot be had. One that is not UTF-8 is no word of this program, as any other that it does not know.
fn no_words(error: io::Error) -> Stop {
    match error.kind() {
        io::ErrorKind::InvalidData => Stop::Usage,
        _ => Stop::Io(error),
    }
}

fn run(rt: &HostRuntime) -> Result<(), Stop> {
    let mut words = env::args(rt).map_err(no_words)?.skip(1);
    let (Some(word), data, tree, None) = (words.next(), words.next(), words.next(), words.next())
    else {
        return Err(Stop::Usage);
    };
    match (word.as_str(), data, tree) {
        ("label", None, None) => print_label(rt),
        ("load", None, None) => print_load(rt),
        ("drill", None, None) => print_drill(rt),
        ("images", Some(data), Some(tree)) => write_images(rt, data, tree),
        ("--help", None, None) => {
            rt.print(USAGE)?;
            Ok(())
        }
        _ => Err(Stop::Usage),
    }
}

fn main(rt: HostRuntime) -> ExitCode {
    let Err(stop) = run(&rt) else {
        return ExitCode::SUCCESS;
    };
    match rt.eprint(stop) {
        // Where even the complaint cannot be written, the status still tells.
        Ok(()) | Err(_) => ExitCode::FAILURE,
    }
}
