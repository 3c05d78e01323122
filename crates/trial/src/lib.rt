// A tray on its way from goods-in to dispatch, on a box in memory: with good cards, and with cards that go bad.
#![tactic(auto)]

ghost use Rattle.trial.specs.Drill.{Drilled};
ghost use Rattle.trial.specs.Trial.{Loaded};

use crate::drilling::drill_under;
use crate::failure::Failure;
use crate::loading::load_under;
use digest::sha256::SaltedSha256;
use digest::siphash::SipHash;
use std::alloc::Global;
use subscriber::cause::SheetError;
use subscriber::read::read_sheet;
use subscriber::tray::HashChoice;

mod cards;
mod drilling;
pub mod failure;
mod job;
mod list;
mod loading;
mod reads;
mod stages;
pub mod stuck;

// What `simbox load` prints for a sheet, or why it prints nothing.
pub fn load(heap: Global, text: &[u8]) -> Result<String, SheetError>
    ensures { Loaded text.now result }
{
    let sheet = read_sheet(heap, text)?;
    let text = match sheet.hash {
        HashChoice::Sha256 { salt } => load_under(heap, &sheet, SaltedSha256::new(salt))?,
        HashChoice::SipHash { key } => load_under(heap, &sheet, SipHash::new(key))?,
    };
    Ok(text)
}

// What `simbox drill` prints for a sheet, or why it prints nothing.
pub fn drill(heap: Global, text: &[u8]) -> Result<String, Failure>
    ensures { Drilled text.now result }
{
    let tray = read_sheet(heap, text)?;
    let text = match tray.hash {
        HashChoice::Sha256 { salt } => drill_under(heap, &tray, SaltedSha256::new(salt))?,
        HashChoice::SipHash { key } => drill_under(heap, &tray, SipHash::new(key))?,
    };
    Ok(text)
}
