// The report of a label: a head line, a line for each SIM, a line on the tree, and the line of the label itself. What adds a line
// fails only where memory runs out.
ghost use Rattle.std.specs.Prelude.{◌≡◌, [], ◌++◌, length, IfOk, OnOk, string_bytes};
ghost use Rattle.geometry.specs.Geometry.{levels, total};
ghost use Rattle.label.specs.Label.{sheet_volume};
ghost use Rattle.label.specs.Report.{AddsLines, ReportFrom, head_line, sim_line, tree_line, hex, label_line, report_with};

use geometry::Geometry;
use sim::Sim;
use sim::block::decode;
use std::alloc::{AllocError, Global};
use std::marker::Model;
use subscriber::sheet::Sheet;

// What names the contents of a tray: the kind of the hash, and the root of the tree under it.
#[derive(Clone, Copy)]
pub(crate) struct Label {
    pub(crate) kind: u8,
    pub(crate) root: [u8; 32],
}

// Two digits to a byte. It takes a slice, since the check knows no bound of the bytes of an array in a struct.
#[tactic(auto, using(crate::proofs::Hex::hex_is))]
fn digits(heap: Global, bytes: &[u8]) -> Result<String, AllocError>
    ensures { IfOk result (λ s. string_bytes s ≡ hex bytes.now) }
{
    hex::encode(heap, bytes)
}

// A report as far as it is written, seen as its bytes.
#[derive(Drop)]
pub(crate) struct Report {
    text: String,
}

impl Model for Report {
    ghost use Rattle.std.specs.Prelude.{ℕ, List, string_bytes};

    ghost Value = { List ℕ };

    ghost view = { λ r. string_bytes r.text };
}

impl Report {
    // The whole report of a tray. Its SIMs are read again from the blocks of its volume.
    pub(crate) fn over(
        heap: Global,
        sheet: &Sheet,
        blocks: &[[u8; 512]],
        label: Label,
    ) -> Result<Report, AllocError>
        ensures from_blocks { let s = sheet.now in IfOk result (λ r. ReportFrom s.tray.value s.blocks.value (length s.sims.items) blocks.now label.kind label.root r) }
        ensures of_sheet { let s = sheet.now in blocks.now ≡ sheet_volume s → IfOk result (λ r. r ≡ report_with s.tray.value s.blocks.value s.sims.items label.kind label.root) }
    {
        let geometry = Geometry {
            blocks: usize::from(sheet.blocks.value),
        };
        let mut report = Report::new(heap);
        report.head(sheet)?;
        report.sims(blocks.get(..sheet.sims.len()).unwrap_or(blocks))?;
        report.tree(geometry)?;
        report.label(heap, label)?;
        Ok(report)
    }

    fn new(heap: Global) -> Report
        ensures { result ≡ [] }
    {
        Report {
            text: String::new(heap),
        }
    }

    fn head(&mut self, sheet: &Sheet) -> Result<(), AllocError>
        ensures { OnOk result (self.new ≡ self.old ++ head_line sheet.now.tray.value (length sheet.now.sims.items) sheet.now.blocks.value) }
    {
        let tray = sheet.tray.value;
        let sims = sheet.sims.len();
        let blocks = sheet.blocks.value;
        writeln!(self.text, "tray {tray}: SIMs {sims}, blocks {blocks}")
    }

    // A line for each block that holds a SIM, read from the block itself.
    fn sims(&mut self, blocks: &[[u8; 512]]) -> Result<(), AllocError>
        ensures { OnOk result (AddsLines blocks.now self.old self.new) }
    {
        for (k, block) in blocks.iter().enumerate() {
            if let Some(sim) = decode(block) {
                self.sim(k, &sim)?;
            }
        }
        Ok(())
    }

    fn sim(&mut self, block: usize, sim: &Sim) -> Result<(), AllocError>
        ensures { OnOk result (self.new ≡ self.old ++ sim_line block sim.now) }
    {
        let identity = sim.identity;
        let key = sim.key;
        let sequence = sim.sequence.value;
        writeln!(
            self.text,
            "block {block}: identity {identity}, key {key}, sequence {sequence}"
        )
    }

    fn tree(&mut self, geometry: Geometry) -> Result<(), AllocError>
        ensures { OnOk result (self.new ≡ self.old ++ tree_line (levels geometry.blocks) (total geometry.blocks)) }
    {
        let levels = geometry.levels();
        let blocks = geometry.total();
        writeln!(self.text, "tree: levels {levels}, blocks {blocks}")
    }

    fn label(&mut self, heap: Global, label: Label) -> Result<(), AllocError>
        ensures { OnOk result (self.new ≡ self.old ++ label_line label.kind label.root) }
    {
        let kind = label.kind;
        let root = digits(heap, &label.root)?;
        writeln!(self.text, "label: kind {kind}, root {root}")
    }

    pub(crate) fn into_text(self) -> String
        ensures { string_bytes result ≡ self }
    {
        self.text
    }
}
