// What formatting writes: zeros to the data device, and the hash tree over them to the tree device. It goes on past a refused write:
// a block with a sure cell has every write accepted, so a refusal takes nothing from what a read is promised.
ghost use Rattle.std.specs.Prelude.{◌≡◌, ℕ, ◌-◌, ◌≤◌, List, ◌++◌, length, replicate};
ghost use Rattle.geometry.specs.Geometry.{up};
ghost use Rattle.tree.specs.Layout.{zero_block, side_by_side, pack, tree_of, root_of};
ghost use Rattle.volume.specs.Format.{IsLevel, alike};
ghost use Rattle.volume.specs.Writes.{InTurn};

use crate::zero::ZERO_BLOCK;
use device::device::Device;
use digest::hash::Hash;
use geometry::Geometry;

// Writes zeros to the first `count` blocks.
pub(crate) fn write_zeros<D: Device>(device: &mut D, count: usize)
    ensures { InTurn D.Device.own 0 (replicate count zero_block) device.old device.new }
{
    write_copies(device, 0, count, &ZERO_BLOCK);
}

// Writes the hash tree over as many blocks of zeros as the geometry has, and answers its root. It takes two images for each level of
// the tree, however many blocks that has.
pub(crate) fn write_zero_tree<D: Device, H: Hash>(
    device: &mut D,
    hash: &H,
    geometry: Geometry,
) -> [u8; 32]
    ensures tree { InTurn D.Device.own 0 (tree_of (H.Hash.image hash.now) (replicate geometry.blocks zero_block)) device.old device.new }
    ensures root { result ≡ root_of (H.Hash.image hash.now) (replicate geometry.blocks zero_block) }
{
    let cell = hash.image_of(&ZERO_BLOCK);
    write_levels(device, hash, &Level::over(geometry.blocks, &cell, &cell))
}

// Writes a level, and before it all levels above it, and answers the root. It takes two images at each level, one at the top: all
// blocks of a level but the last are one block. For the levels above it calls itself, twice at most.
fn write_levels<D: Device, H: Hash>(device: &mut D, hash: &H, level: &Level) -> [u8; 32]
    ensures tree { (contents : List (List ℕ)) → IsLevel (H.Hash.image hash.now) contents level.now.count level.now.others level.now.last → InTurn D.Device.own 0 (tree_of (H.Hash.image hash.now) contents) device.old device.new }
    ensures root { (contents : List (List ℕ)) → IsLevel (H.Hash.image hash.now) contents level.now.count level.now.others level.now.last → result ≡ root_of (H.Hash.image hash.now) contents }
{
    let last = hash.image_of(&level.last);
    if level.count == 1 {
        level.write(device, 0);
        return last;
    }
    let others = hash.image_of(&level.others);
    let above = Level::over(level.count, &others, &last);
    let root = write_levels(device, hash, &above);
    let tree_above = Geometry {
        blocks: level.count,
    };
    level.write(device, tree_above.total());
    root
}

// Writes one block to each number from `from` on and below `to`.
fn write_copies<D: Device>(device: &mut D, from: usize, to: usize, block: &[u8; 512])
    requires { from ≤ to }
    ensures { (s : D) (before : List (List ℕ)) → length before ≡ from → InTurn D.Device.own 0 before s device.old → InTurn D.Device.own 0 (before ++ replicate (to - from) block.now) s device.new }
{
    for number in from..to {
        let _ = device.write(number, block);
    }
}

// A level of a tree, whose blocks are all alike but the last.
#[derive(Drop)]
struct Level {
    count: usize,
    others: [u8; 512],
    last: [u8; 512],
    ghost least: { 1 ≤ count },
    ghost most: { count ≤ 256 },
}

impl Level {
    // The level that holds so many cells, all alike but the last.
    fn over(count: usize, others: &[u8; 32], last: &[u8; 32]) -> Level
        requires { (1 ≤ count) × (count ≤ 4096) }
        ensures count { result.count ≡ up count }
        ensures blocks { pack (alike count others.now last.now) ≡ alike result.count result.others result.last }
    {
        Level {
            count: count.div_ceil(16),
            others: block_of(16, others, others),
            last: block_of((count - 1) % 16 + 1, others, last),
        }
    }

    // Writes the level from block `from` on.
    fn write<D: Device>(&self, device: &mut D, from: usize)
        requires { from ≤ 65536 }
        ensures { (s : D) (before : List (List ℕ)) → length before ≡ from → InTurn D.Device.own 0 before s device.old → InTurn D.Device.own 0 (before ++ alike self.now.count self.now.others self.now.last) s device.new }
    {
        let end = from + self.count - 1;
        write_copies(device, from, end, &self.others);
        let _ = device.write(end, &self.last);
    }
}

// Makes a block of so many cells, all alike but the last.
fn block_of(count: usize, others: &[u8; 32], last: &[u8; 32]) -> [u8; 512]
    requires { (1 ≤ count) × (count ≤ 16) }
    ensures { result ≡ side_by_side (alike count others.now last.now) }
{
    let mut cells = [[0; 32]; 16];
    cells[..count - 1].fill(*others);
    cells[count - 1] = *last;
    let mut block = [0; 512];
    block.copy_from_slice(cells.as_flattened());
    block
}
