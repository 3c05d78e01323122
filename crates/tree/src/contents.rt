// What a volume holds: 1 to 4096 blocks of 512 bytes.
ghost use Rattle.std.specs.Prelude.{◌≡◌, ◌<◌, ◌≤◌, replicate, IfOk, vec_len, MatchResult, slice_set};
ghost use Rattle.tree.specs.Layout.{zero_block};

use geometry::Geometry;
use std::alloc::{AllocError, Global};

#[derive(Drop)]
pub struct Contents {
    pub blocks: Vec<[u8; 512]>,
    ghost least: { 1 ≤ vec_len blocks },
    ghost most: { vec_len blocks ≤ 4096 },
}

// A block number that is not below the number of blocks.
#[derive(Clone, Copy, Debug, PartialEq, Eq)]
pub struct PastEnd {
    pub at: usize,
}

impl Contents {
    // All blocks zero.
    pub fn zeros(heap: Global, geometry: Geometry) -> Result<Contents, AllocError>
        ensures { IfOk result (λ c. c.blocks.items ≡ replicate geometry.blocks zero_block) }
    {
        let blocks = zero_blocks(heap, geometry.blocks)?;
        Ok(Contents { blocks })
    }

    // Puts a block in; past the last one everything stays as it is.
    pub fn put(&mut self, at: usize, block: &[u8; 512]) -> Result<(), PastEnd>
        ensures { MatchResult result (λ _. (at < vec_len self.old.blocks) × (self.new.blocks.items ≡ slice_set self.old.blocks.items at block.now)) (λ e. (vec_len self.old.blocks ≤ at) × (e.at ≡ at) × (self.new ≡ self.old)) }
    {
        let slot = self.blocks.get_mut(at).ok_or(PastEnd { at })?;
        *slot = *block;
        Ok(())
    }

    // The numbers of the tree over these blocks.
    pub fn geometry(&self) -> Geometry
        ensures { result.blocks ≡ vec_len self.now.blocks }
    {
        Geometry {
            blocks: self.blocks.len(),
        }
    }
}

pub(crate) fn zero_blocks(heap: Global, count: usize) -> Result<Vec<[u8; 512]>, AllocError>
    ensures { IfOk result (λ v. v.items ≡ replicate count zero_block) }
{
    vec![in heap; [0u8; 512]; count]
}
