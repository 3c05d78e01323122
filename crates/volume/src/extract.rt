// What a record gives away about the hash, beside the true contents of the volume. It takes no heap.
ghost use Rattle.std.specs.Prelude.{◌≡◌, ◌≢◌, ◌+◌, ◌*◌, ◌<◌, ◌≤◌, [], length, None, IfSome, slice_index_or};
ghost use Rattle.device.specs.Memory.{part};
ghost use Rattle.volume.specs.Extract.{blocks_at, differ, extract, lists_of};

use digest::hash::Hash;
use tree::contents::Contents;

// Two blocks that differ and have one image.
#[derive(Clone, Copy, Debug, PartialEq, Eq)]
pub struct Pair {
    pub truth: [u8; 512],
    pub recorded: [u8; 512],
}

// Compares the parts of a record with the true blocks, from the top of the tree down to the data block, which has height 0. The first
// part that differs gives the pair, if the images agree.
pub fn extract<H: Hash>(
    hash: &H,
    contents: &Contents,
    number: usize,
    record_area: &[u8],
) -> Option<Pair>
    ensures exactly { lists_of result ≡ extract (H.Hash.image hash.now) contents.now.blocks.items number record_area.now }
    ensures pair { IfSome result (λ p. (p.truth ≢ p.recorded) × (H.Hash.image hash.now p.truth ≡ H.Hash.image hash.now p.recorded)) }
{
    if number >= contents.blocks.len() || record_area.len() != 2048 {
        return None;
    }
    for height in (0..=contents.geometry().levels()).rev() {
        // Each height takes four bits of the block number.
        let truth = true_block(hash, contents, height, number >> (4 * height));
        let recorded = recorded_block(record_area, height);
        if truth != recorded {
            return collision(hash, truth, recorded);
        }
    }
    None
}

#[tactic(auto, unfolding(device::specs::Memory::part))]
fn recorded_block(record_area: &[u8], height: usize) -> [u8; 512]
    requires { 512 * height + 512 ≤ length record_area.now }
    ensures { result ≡ part record_area.now height }
{
    let mut block = [0; 512];
    block.copy_from_slice(&record_area[512 * height..512 * height + 512]);
    block
}

// Two blocks that differ, if they have one image.
fn collision<H: Hash>(hash: &H, truth: [u8; 512], recorded: [u8; 512]) -> Option<Pair>
    requires { truth ≢ recorded }
    ensures { lists_of result ≡ differ (H.Hash.image hash.now) truth recorded None }
{
    if hash.image_of(&truth) == hash.image_of(&recorded) {
        Some(Pair { truth, recorded })
    } else {
        None
    }
}

// The true block of a height: at height 0 a data block, and above that a block of the tree, made of the images of up to sixteen blocks
// below it. Each of those is made anew, since the levels have no place but the heap.
fn true_block<H: Hash>(hash: &H, contents: &Contents, height: usize, at: usize) -> [u8; 512]
    requires low { height ≤ 3 }
    requires inside { at < length (blocks_at (H.Hash.image hash.now) contents.now.blocks.items height) }
    ensures { result ≡ slice_index_or (blocks_at (H.Hash.image hash.now) contents.now.blocks.items height) at [] }
{
    if height == 0 {
        return contents.blocks[at];
    }
    let below = height - 1;
    // How many blocks the height below has; up to there, each height has taken four bits of the last number.
    let count = ((contents.blocks.len() - 1) >> (4 * below)) + 1;
    let mut cells = [[0; 32]; 16];
    for i in 0..(count - 16 * at).min(16) {
        cells[i] = hash.image_of(&true_block(hash, contents, below, 16 * at + i));
    }
    let mut block = [0; 512];
    block.copy_from_slice(cells.as_flattened());
    block
}
