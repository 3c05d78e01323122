// A tray on good cards, to the label that dispatch prints.
ghost use Rattle.std.specs.Prelude.{◌≡◌, ◌≤◌, ◌++◌, IfOk, OnOk, length, string_bytes, vec_len};
ghost use Rattle.device.specs.Piles.{cache, mirror, one, other, pile_device, pile_source};
ghost use Rattle.geometry.specs.Geometry.{total};
ghost use Rattle.label.specs.Label.{sheet_volume};
ghost use Rattle.label.specs.Report.{report_with};
ghost use Rattle.tree.specs.Layout.{root_of};
ghost use Rattle.trial.specs.Cards.{AreBlank};
ghost use Rattle.trial.specs.Good.{GoodCard, GoodVolume, TakenThrough};
ghost use Rattle.trial.specs.Trial.{LoadedUnder, Prints, box_device, box_source, format_line, read_lines, stage_lines, write_lines};
ghost use Rattle.volume.specs.View.{base, view};

use crate::cards::{Cards, Regions};
use crate::list::{blocks_back, reads, writes};
use crate::stages::play;
use device::device::Device;
use device::piles::cached_mirror;
use digest::hash::Hash;
use geometry::Geometry;
use label::load::load;
use label::report_from;
use std::alloc::{AllocError, Global};
use subscriber::sheet::Sheet;
use volume::register::Register;
use volume::volume::Volume;

// What comes back from a volume: its blocks, and the register as it was kept.
#[derive(Drop)]
pub(crate) struct Back {
    pub(crate) blocks: Vec<[u8; 512]>,
    pub(crate) register: Register,
}

// Formats a volume, puts these blocks in and keeps them, and reads all its blocks. On sound devices of the right sizes every call is
// accepted.
fn take_through<D: Device, T: Device, H: Hash + Copy>(
    heap: Global,
    volume: &mut Volume<D, T, H>,
    sims: &[[u8; 512]],
    blocks: usize,
) -> Result<Back, AllocError>
    requires good { GoodVolume (view (base D.Source.own T.Source.own D.Device.own T.Device.own H.Hash.own) volume.old) blocks }
    requires few { length sims.now ≤ blocks }
    ensures { IfOk result (λ back. TakenThrough (base D.Source.own T.Source.own D.Device.own T.Device.own H.Hash.own) volume.old.number volume.old.hash sims.now blocks back.blocks.items back.register) }
{
    let mut register = Register::blank();
    let Ok(()) = volume.format(&mut register) else {
        unreachable!()
    };
    let mut written = writes(heap, sims)?;
    play(volume, &mut register, &mut written);
    let mut read = reads(heap, blocks)?;
    play(volume, &mut register, &mut read);
    Ok(Back {
        blocks: blocks_back(heap, &read)?,
        register,
    })
}

// The same over the regions of two cards. They are of any type, since the check does not cover a type argument that has both a cache and
// a `Memory` in it.
fn load_on<A: Device + Drop, B: Device + Drop, C: Device + Drop, E: Device + Drop, H: Hash + Copy>(
    heap: Global,
    number: u32,
    hash: H,
    store: (A, B),
    tree: (C, E),
    sims: &[[u8; 512]],
    geometry: Geometry,
) -> Result<Back, AllocError>
    requires store { GoodCard (A.meaning store.0) geometry.blocks × GoodCard (B.meaning store.1) geometry.blocks }
    requires tree { GoodCard (C.meaning tree.0) (total geometry.blocks) × GoodCard (E.meaning tree.1) (total geometry.blocks) }
    requires few { length sims.now ≤ geometry.blocks }
    ensures { let over = pile_source A.Source.own B.Source.own (cache (mirror one other)) in let beside = pile_source C.Source.own E.Source.own (cache (mirror one other)) in IfOk result (λ back. TakenThrough (base over beside (pile_device A.Source.own B.Source.own A.Device.own B.Device.own (cache (mirror one other))) (pile_device C.Source.own E.Source.own C.Device.own E.Device.own (cache (mirror one other))) H.Hash.own) number hash sims.now geometry.blocks back.blocks.items back.register) }
{
    let store = cached_mirror(store.0, store.1);
    let tree = cached_mirror(tree.0, tree.1);
    let mut volume = Volume::new(store, tree, hash, number);
    take_through(heap, &mut volume, sims, geometry.blocks)
}

// The same over two cards in memory.
fn load_cards<H: Hash + Copy>(
    heap: Global,
    number: u32,
    hash: H,
    cards: &mut Cards,
    sims: &[[u8; 512]],
    geometry: Geometry,
) -> Result<Back, AllocError>
    requires cards { AreBlank geometry.blocks cards.old }
    requires few { length sims.now ≤ geometry.blocks }
    ensures { IfOk result (λ back. TakenThrough (base box_source box_source box_device box_device H.Hash.own) number hash sims.now geometry.blocks back.blocks.items back.register) }
{
    let Regions { data, tree } = cards.regions();
    load_on(heap, number, hash, data, tree, sims, geometry)
}

fn add_format(sheet: &Sheet, report: &mut String) -> Result<(), AllocError>
    ensures { let s = sheet.now in OnOk result (string_bytes report.new ≡ string_bytes report.old ++ format_line s.blocks.value (total s.blocks.value)) }
{
    let geometry = Geometry {
        blocks: usize::from(sheet.blocks.value),
    };
    let blocks = geometry.blocks;
    let tree = geometry.total();
    writeln!(report, "format: {blocks} data blocks, {tree} tree blocks")
}

fn add_written(sheet: &Sheet, report: &mut String) -> Result<(), AllocError>
    ensures { OnOk result (string_bytes report.new ≡ string_bytes report.old ++ write_lines (vec_len sheet.now.sims)) }
{
    let sims = sheet.sims.len();
    writeln!(report, "open\nbegin\nwrite: {sims} blocks\nkeep\nshut")
}

fn add_read(sheet: &Sheet, report: &mut String) -> Result<(), AllocError>
    ensures { OnOk result (string_bytes report.new ≡ string_bytes report.old ++ read_lines sheet.now.blocks.value) }
{
    let blocks = sheet.blocks.value;
    writeln!(report, "open\nread: {blocks} blocks, each as written\nshut")
}

// A line for each stage, all of which went well, and then the report of the label, made from what came back.
fn report(heap: Global, sheet: &Sheet, back: &Back) -> Result<String, AllocError>
    ensures prints { IfOk result (λ t. Prints sheet.now back.now.blocks.items back.now.register.kind back.now.register.root (string_bytes t)) }
    ensures of_sheet { let s = sheet.now in back.now.blocks.items ≡ sheet_volume s → IfOk result (λ t. string_bytes t ≡ stage_lines s ++ report_with s.tray.value s.blocks.value s.sims.items back.now.register.kind back.now.register.root) }
{
    let mut report = String::new(heap);
    add_format(sheet, &mut report)?;
    add_written(sheet, &mut report)?;
    add_read(sheet, &mut report)?;
    let Register { kind, root, .. } = back.register;
    let label = report_from(heap, sheet, &back.blocks, kind, root)?;
    report.push_str(label.as_str())?;
    Ok(report)
}

pub(crate) fn load_under<H: Hash + Copy>(
    heap: Global,
    sheet: &Sheet,
    hash: H,
) -> Result<String, AllocError>
    ensures loaded { IfOk result (λ t. LoadedUnder H.Hash.own hash sheet.now (string_bytes t)) }
    ensures of_sheet { let s = sheet.now in IfOk result (λ t. string_bytes t ≡ stage_lines s ++ report_with s.tray.value s.blocks.value s.sims.items H.Hash.KIND (root_of (H.Hash.image hash) (sheet_volume s))) }
{
    let contents = load(heap, sheet)?;
    let geometry = contents.geometry();
    let sims = &contents.blocks[..sheet.sims.len()];
    let mut cards = Cards::blank(heap, geometry)?;
    let back = load_cards(heap, sheet.tray.value, hash, &mut cards, sims, geometry)?;
    report(heap, sheet, &back)
}
