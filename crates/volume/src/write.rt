// What a write does to the two devices, once its walk has passed: first the plan, which blocks the path has afterwards, and then the writes.
ghost use Rattle.std.specs.Prelude.{◌≡◌, ◌<◌, ℕ, List, Some};
ghost use Rattle.device.specs.Memory.{part};
ghost use Rattle.geometry.specs.Geometry.{levels};
ghost use Rattle.tree.specs.Layout.{put_cell};
ghost use Rattle.volume.specs.Refusals.{side_number, stuck_in};
ghost use Rattle.volume.specs.Writes.{IsPlan, Put, PutUp};

use crate::refusal::{Failed, Side};
use crate::walk::{RECORD, known_place};
use device::device::Device;
use digest::hash::Hash;
use geometry::Geometry;

// The new tree blocks over a data block, from level 0 up, and the root over them. Levels that the tree has not are zero.
#[derive(Drop)]
pub(crate) struct Plan {
    pub(crate) tree_blocks: [[u8; 512]; 3],
    pub(crate) root: [u8; 32],
}

// A block of the log with one cell replaced.
#[tactic(auto, unfolding(device::specs::Memory::part, tree::specs::Layout::put_cell))]
fn with_cell(log: &[u8; RECORD], at: usize, cell: usize, image: &[u8; 32]) -> [u8; 512]
    requires { (at < 4) × (cell < 16) }
    ensures { result ≡ put_cell (part log.now at) cell image.now }
{
    let mut block = [0; 512];
    block.copy_from_slice(&log[512 * at..512 * at + 512]);
    block[32 * cell..32 * cell + 32].copy_from_slice(image);
    block
}

// Works out what a write puts on the path: what passed at each level, with the image from below in its cell. Nothing is asked of a device.
pub(crate) fn plan_for<H: Hash>(
    hash: &H,
    geometry: Geometry,
    number: usize,
    block: &[u8; 512],
    log: &[u8; RECORD],
) -> Plan
    requires { number < geometry.blocks }
    ensures { IsPlan (H.Hash.image hash.now) geometry.blocks number log.now block.now result.tree_blocks result.root }
{
    let mut image = hash.image_of(block);
    let mut tree_blocks = [[0; 512]; 3];
    for level in 0..geometry.levels() {
        let (_block, cell) = known_place(geometry, level, number);
        let new = with_cell(log, level + 1, cell, &image);
        image = hash.image_of(&new);
        tree_blocks[level] = new;
    }
    Plan {
        tree_blocks,
        root: image,
    }
}

// Writes one block. `failed` is the first refused write so far.
pub(crate) fn put<D: Device>(
    device: &mut D,
    side: Side,
    level: usize,
    number: usize,
    block: &[u8; 512],
    failed: &mut Option<Failed>,
)
    ensures { Put D.Device.own number block.now (λ fault. record { side = side_number side; level = level; block = number; fault = Some fault }) (stuck_in failed.old) device.old (stuck_in failed.new) device.new }
{
    if let Err(fault) = device.write(number, block)
        && failed.is_none()
    {
        *failed = Some(Failed {
            side,
            level,
            block: number,
            fault: Some(fault),
        });
    }
}

// Writes the new tree blocks of a plan from level 0 up, going on past refused writes.
pub(crate) fn put_up<T: Device>(
    tree: &mut T,
    geometry: Geometry,
    number: usize,
    plan: &Plan,
    failed: &mut Option<Failed>,
)
    requires { number < geometry.blocks }
    ensures { (image : List ℕ → List ℕ) (log block : List ℕ) → IsPlan image geometry.blocks number log block plan.now.tree_blocks plan.now.root → PutUp T.Device.own image geometry.blocks number log block (stuck_in failed.old) tree.old (levels geometry.blocks) (stuck_in failed.new) tree.new }
{
    for level in 0..geometry.levels() {
        let (block, _cell) = known_place(geometry, level, number);
        put(
            tree,
            Side::Tree,
            level,
            block,
            &plan.tree_blocks[level],
            failed,
        );
    }
}
