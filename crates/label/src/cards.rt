// What is made of a sheet: the report of its label, and the two cards of the tray.
ghost use Rattle.std.specs.Prelude.{◌≡◌, IfOk, string_bytes};
ghost use Rattle.label.specs.Label.{volume_of};
ghost use Rattle.label.specs.Report.{report_with};
ghost use Rattle.tree.specs.Layout.{tree_of, root_of};

use crate::load::load;
use crate::report::{Label, Report};
use digest::hash::Hash;
use std::alloc::{AllocError, Global};
use subscriber::sheet::Sheet;
use tree::layout::Tree;

#[derive(Drop)]
pub struct Images {
    pub report: String,
    // The blocks of the data card, from block 0 on.
    pub volume: Vec<[u8; 512]>,
    // The blocks of the tree card, from block 0 on.
    pub tree: Vec<[u8; 512]>,
}

impl Images {
    // All three under a hash. The tree is made once: its root goes into the report, and its blocks onto the card.
    pub(crate) fn under<H: Hash>(
        heap: Global,
        sheet: &Sheet,
        hash: &H,
    ) -> Result<Images, AllocError>
        ensures report { IfOk result (λ i. string_bytes i.report ≡ report_with sheet.now.tray.value sheet.now.blocks.value sheet.now.sims.items H.Hash.KIND (root_of (H.Hash.image hash.now) (volume_of sheet.now.sims.items sheet.now.blocks.value))) }
        ensures volume { IfOk result (λ i. i.volume.items ≡ volume_of sheet.now.sims.items sheet.now.blocks.value) }
        ensures tree { IfOk result (λ i. i.tree.items ≡ tree_of (H.Hash.image hash.now) (volume_of sheet.now.sims.items sheet.now.blocks.value)) }
    {
        let contents = load(heap, sheet)?;
        let Tree { blocks, root } = Tree::over(heap, hash, &contents)?;
        let kind = H::KIND;
        let report = Report::over(heap, sheet, &contents.blocks, Label { kind, root })?;
        Ok(Images {
            report: report.into_text(),
            volume: contents.blocks,
            tree: blocks,
        })
    }
}
