// The walk from the root down to a data block, over any two sources.
ghost use Rattle.std.specs.Prelude.{◌≡◌, ◌≤◌, ◌<◌, IsErr, None, length};
ghost use Rattle.device.specs.Zeros.{zeros};
ghost use Rattle.device.specs.Memory.{with_part};
ghost use Rattle.geometry.specs.Geometry.{levels, place};
ghost use Rattle.tree.specs.Paths.{cell_at};
ghost use Rattle.volume.specs.Record.{blank};
ghost use Rattle.volume.specs.Refusals.{told};
ghost use Rattle.volume.specs.Walk.{Search, outcome_of, Descended, Walked, Fetched, FetchedBlock};

use crate::refusal::{Failed, Refusal, Side};
use crate::zero::ZERO_BLOCK;
use device::fault::Fault;
use device::source::Source;
use digest::hash::Hash;
use geometry::Geometry;

// The length of a record area: the data block, and a tree block of each of the three levels that there may be.
pub(crate) const RECORD: usize = 2048;

// Looks for a block with the expected image in all ways, from 0 on. Where none passes, the area is left zero, and the answer is why
// the last way did not.
#[tactic(auto, unfolding(device::specs::Zeros::zeros))]
pub(crate) fn pass<S: Source, H: Hash>(
    source: &mut S,
    hash: &H,
    number: usize,
    expected: &[u8; 32],
    area: &mut [u8; 512],
) -> Result<(), Option<Fault>>
    ensures search { Search S.Source.own (H.Hash.image hash.now) number expected.now (S.meaning source.old).ways 0 None source.old (outcome_of result area.new) source.new }
    ensures blank { IsErr result → area.new ≡ zeros }
{
    let mut last = None;
    for way in 0..source.ways() {
        match source.read(way, number, area) {
            Ok(()) if hash.image_of(area) == *expected => return Ok(()),
            Ok(()) => last = None,
            Err(fault) => last = Some(fault),
        }
    }
    *area = ZERO_BLOCK;
    Err(last)
}

// Puts a block that has passed into its part of the record area. In code and clauses that area is the log: `record` is a word of theirs.
#[tactic(auto, using(device::specs::MemoryLaws::put_with_part))]
fn note(log: &mut [u8; RECORD], part: usize, block: &[u8; 512])
    requires { part ≤ 3 }
    ensures { log.new ≡ with_part log.old part block.now }
{
    let start = 512 * part;
    log[start..start + 512].copy_from_slice(block);
}

// A cell of a tree block.
#[tactic(auto, unfolding(tree::specs::Paths::cell_at))]
fn cell_of(block: &[u8; 512], cell: usize) -> [u8; 32]
    requires { cell < 16 }
    ensures { result ≡ cell_at block.now cell }
{
    let mut image = [0; 32];
    image.copy_from_slice(&block[32 * cell..32 * cell + 32]);
    image
}

// Looks for the tree block of one level. It comes into the log, and the image that is expected next stands in its cell.
fn descend<S: Source, H: Hash>(
    tree: &mut S,
    hash: &H,
    place: (usize, usize),
    level: usize,
    expected: &mut [u8; 32],
    log: &mut [u8; RECORD],
) -> Result<(), Refusal>
    requires { (level < 3) × (place.1 < 16) }
    ensures { Descended S.Source.own (H.Hash.image hash.now) level place.0 place.1 expected.old log.old tree.old (told result) expected.new log.new tree.new }
{
    let (block, cell) = place;
    let mut bytes = [0; 512];
    pass(tree, hash, block, expected, &mut bytes).map_err(|fault| {
        Refusal::TreeBlock(Failed {
            side: Side::Tree,
            level,
            block,
            fault,
        })
    })?;
    note(log, level + 1, &bytes);
    *expected = cell_of(&bytes, cell);
    Ok(())
}

// The place of a data block at a level that there is.
#[tactic(auto, using(crate::proofs::Places::cell_inside, geometry::proofs::Numbers::levels_most))]
pub(crate) fn known_place(geometry: Geometry, level: usize, number: usize) -> (usize, usize)
    requires { (level < levels geometry.blocks) × (number < geometry.blocks) }
    ensures { (result ≡ place geometry.blocks level number) × (result.1 < 16) × (level < 3) }
{
    let Some(place) = geometry.place(level, number) else {
        unreachable!()
    };
    place
}

// Walks down the tree to a data block, and answers with the image that it has to have. The log gets each block that passes.
pub(crate) fn walk<S: Source, H: Hash>(
    tree: &mut S,
    hash: &H,
    geometry: Geometry,
    number: usize,
    root: &[u8; 32],
    log: &mut [u8; RECORD],
) -> Result<[u8; 32], Refusal>
    requires { number < geometry.blocks }
    ensures { Walked S.Source.own (H.Hash.image hash.now) geometry.blocks number (levels geometry.blocks) root.now log.old tree.old (told result) log.new tree.new }
{
    let mut expected = *root;
    for level in (0..geometry.levels()).rev() {
        let place = known_place(geometry, level, number);
        descend(tree, hash, place, level, &mut expected, log)?;
    }
    Ok(expected)
}

// Looks for the data block. It fills the block area and comes into the log.
fn fetch_block<S: Source, H: Hash>(
    store: &mut S,
    hash: &H,
    number: usize,
    expected: &[u8; 32],
    block: &mut [u8; 512],
    log: &mut [u8; RECORD],
) -> Result<(), Refusal>
    ensures { FetchedBlock S.Source.own (H.Hash.image hash.now) number expected.now log.old store.old (told result) block.new log.new store.new }
{
    pass(store, hash, number, expected, block).map_err(|fault| {
        Refusal::DataBlock(Failed {
            side: Side::Data,
            level: 0,
            block: number,
            fault,
        })
    })?;
    note(log, 0, block);
    Ok(())
}

// Reads a data block from the root down. Only the block that the tree vouches for is left in the block area, else zeros, and the log has
// what passed.
#[tactic(auto, unfolding(device::specs::Zeros::zeros, crate::specs::Record::blank))]
pub(crate) fn fetch<S: Source, U: Source, H: Hash>(
    store: &mut S,
    tree: &mut U,
    hash: &H,
    geometry: Geometry,
    number: usize,
    root: &[u8; 32],
    block: &mut [u8; 512],
    log: &mut [u8; RECORD],
) -> Result<(), Refusal>
    requires { number < geometry.blocks }
    ensures { Fetched S.Source.own U.Source.own (H.Hash.image hash.now) geometry.blocks number root.now store.old tree.old (told result) block.new log.new store.new tree.new }
{
    *block = ZERO_BLOCK;
    *log = [0; RECORD];
    let expected = walk(tree, hash, geometry, number, root, log)?;
    fetch_block(store, hash, number, &expected, block, log)
}

// The same over areas of the right lengths that are slices.
pub(crate) fn fetch_into<S: Source, U: Source, H: Hash>(
    store: &mut S,
    tree: &mut U,
    hash: &H,
    geometry: Geometry,
    number: usize,
    root: &[u8; 32],
    block: &mut [u8],
    log: &mut [u8],
) -> Result<(), Refusal>
    requires inside { number < geometry.blocks }
    requires areas { (length block.old ≡ 512) × (length log.old ≡ 2048) }
    ensures { Fetched S.Source.own U.Source.own (H.Hash.image hash.now) geometry.blocks number root.now store.old tree.old (told result) block.new log.new store.new tree.new }
{
    let (Some(block), Some(log)) = (block.as_mut_array(), log.as_mut_array()) else {
        unreachable!()
    };
    fetch(store, tree, hash, geometry, number, root, block, log)
}

// The walk alone, from a blank log on, over a slice of the right length.
#[tactic(auto, unfolding(crate::specs::Record::blank))]
pub(crate) fn walk_into<S: Source, H: Hash>(
    tree: &mut S,
    hash: &H,
    geometry: Geometry,
    number: usize,
    root: &[u8; 32],
    log: &mut [u8],
) -> Result<[u8; 32], Refusal>
    requires inside { number < geometry.blocks }
    requires area { length log.old ≡ 2048 }
    ensures walked { Walked S.Source.own (H.Hash.image hash.now) geometry.blocks number (levels geometry.blocks) root.now blank tree.old (told result) log.new tree.new }
    ensures area { length log.new ≡ 2048 }
{
    let Some(log) = log.as_mut_array() else {
        unreachable!()
    };
    *log = [0; RECORD];
    walk(tree, hash, geometry, number, root, log)
}
