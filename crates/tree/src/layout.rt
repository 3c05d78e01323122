// The tree that lies over the contents of a volume, and its root.
ghost use Rattle.std.specs.Prelude.{◌≡◌, ◌≤◌, map, length, IfOk};
ghost use Rattle.geometry.specs.Geometry.{up, total};
ghost use Rattle.tree.specs.Layout.{side_by_side, pack, tree_of, root_of};
ghost use Rattle.tree.specs.Paths.{LeadUp};

use crate::contents::{Contents, zero_blocks};
use digest::hash::Hash;
use std::alloc::{AllocError, Global};

// Makes a block of the images of up to sixteen blocks, each put straight into its cell; the cells after the last are zero.
fn fill_block<H: Hash>(hash: &H, below: &[[u8; 512]], block: &mut [u8; 512])
    requires { length below.now ≤ 16 }
    ensures { block.new ≡ side_by_side (map (H.Hash.image hash.now) below.now) }
{
    *block = [0; 512];
    // By number, since nothing is known afterwards of what a `zip` with `iter_mut` has lent.
    for (i, lower) in below.iter().enumerate() {
        block[32 * i..32 * i + 32].copy_from_slice(&hash.image_of(lower));
    }
}

// Makes a level of the images of the blocks below it.
#[tactic(auto, using(crate::proofs::Levels::made_all))]
fn fill_level<H: Hash>(hash: &H, below: &[[u8; 512]], level: &mut [[u8; 512]])
    requires { length level.old ≡ up (length below.now) }
    ensures { level.new ≡ pack (map (H.Hash.image hash.now) below.now) }
{
    // By number, as in `fill_block`.
    for (j, sixteen) in below.chunks(16).enumerate() {
        fill_block(hash, sixteen, &mut level[j]);
    }
}

// Makes the tree over some blocks: the lowest level at its end, and before it the tree over that level.
#[tactic(auto, using(geometry::proofs::Numbers::total_split, geometry::proofs::Numbers::total_more, geometry::proofs::Numbers::total_one, crate::proofs::Whole::tree_more, crate::proofs::Whole::tree_one))]
fn fill<H: Hash>(hash: &H, below: &[[u8; 512]], tree: &mut [[u8; 512]])
    requires few { (1 ≤ length below.now) × (length below.now ≤ 4096) }
    requires room { length tree.old ≡ total (length below.now) }
    ensures { tree.new ≡ tree_of (H.Hash.image hash.now) below.now }
{
    let lowest = tree.len() - below.len().div_ceil(16);
    let (upper, level) = tree.split_at_mut(lowest);
    fill_level(hash, below, level);
    if level.len() > 1 {
        fill(hash, level, upper);
    }
}

// All levels as they lie on the tree device, the top first, and the image of the top block.
#[derive(Drop)]
pub struct Tree {
    pub blocks: Vec<[u8; 512]>,
    pub root: [u8; 32],
}

impl Tree {
    // The tree over the contents, in which the places of each data block lead up to the root. It takes one image of each data block
    // and of each tree block.
    #[tactic(auto, using(geometry::proofs::Numbers::total_least))]
    pub fn over<H: Hash>(heap: Global, hash: &H, contents: &Contents) -> Result<Tree, AllocError>
        ensures layout { IfOk result (λ t. (t.blocks.items ≡ tree_of (H.Hash.image hash.now) contents.now.blocks.items) × (t.root ≡ root_of (H.Hash.image hash.now) contents.now.blocks.items)) }
        ensures leads { IfOk result (λ t. LeadUp (H.Hash.image hash.now) contents.now.blocks.items t.blocks.items t.root) }
    {
        let mut blocks = zero_blocks(heap, contents.geometry().total())?;
        fill(hash, &contents.blocks, &mut blocks);
        let root = hash.image_of(&blocks[0]);
        Ok(Tree { blocks, root })
    }
}
