// From the text of a tray's sheet to the report with its label, and to the images of its two cards.
#![tactic(auto)]

ghost use Rattle.std.specs.Prelude.{◌≡◌, IfOk, length, string_bytes};
ghost use Rattle.label.specs.Label.{Labelled, Imaged, sheet_volume};
ghost use Rattle.label.specs.Report.{ReportFrom, report_with};

use crate::cards::Images;
use crate::report::{Label, Report};
use digest::sha256::SaltedSha256;
use digest::siphash::SipHash;
use std::alloc::{AllocError, Global};
use subscriber::cause::SheetError;
use subscriber::read::read_sheet;
use subscriber::sheet::Sheet;
use subscriber::tray::HashChoice;

pub mod cards;
pub mod load;
mod report;

// What `simbox label` prints for a sheet, or why it prints nothing.
pub fn label(heap: Global, text: &[u8]) -> Result<String, SheetError>
    ensures { Labelled text.now result }
{
    Ok(images(heap, text)?.report)
}

// The same with what `simbox images` writes to the cards.
pub fn images(heap: Global, text: &[u8]) -> Result<Images, SheetError>
    ensures { Imaged text.now result }
{
    let sheet = read_sheet(heap, text)?;
    let images = match sheet.hash {
        HashChoice::Sha256 { salt } => Images::under(heap, &sheet, &SaltedSha256::new(salt))?,
        HashChoice::SipHash { key } => Images::under(heap, &sheet, &SipHash::new(key))?,
    };
    Ok(images)
}

// The same report from a volume's blocks, as they came back from it, and the kind and root of its register: the SIMs are told as these
// blocks say them, whatever the sheet says.
pub fn report_from(
    heap: Global,
    sheet: &Sheet,
    blocks: &[[u8; 512]],
    kind: u8,
    root: [u8; 32],
) -> Result<String, AllocError>
    ensures from_blocks { let s = sheet.now in IfOk result (λ t. ReportFrom s.tray.value s.blocks.value (length s.sims.items) blocks.now kind root (string_bytes t)) }
    ensures of_sheet { let s = sheet.now in blocks.now ≡ sheet_volume s → IfOk result (λ t. string_bytes t ≡ report_with s.tray.value s.blocks.value s.sims.items kind root) }
{
    let report = Report::over(heap, sheet, blocks, Label { kind, root })?;
    Ok(report.into_text())
}
