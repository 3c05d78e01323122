// The two cards of a box, in memory.
ghost use Rattle.std.specs.Prelude.{◌≡◌, replicate, IfOk};
ghost use Rattle.tree.specs.Layout.{zero_block};
ghost use Rattle.trial.specs.Cards.{AreBlank, AreLent};

use device::memory::Memory;
use geometry::Geometry;
use std::alloc::{AllocError, Global};

type Region = Vec<[u8; 512]>;

// Each card has a region for the data blocks and one for the tree blocks.
#[derive(Drop)]
pub(crate) struct Cards {
    pub(crate) data_1: Region,
    pub(crate) data_2: Region,
    pub(crate) tree_1: Region,
    pub(crate) tree_2: Region,
}

// The regions as devices: those of the two cards for data, and for the tree.
#[derive(Drop)]
pub(crate) struct Regions<'a> {
    pub(crate) data: (Memory<'a>, Memory<'a>),
    pub(crate) tree: (Memory<'a>, Memory<'a>),
}

// All zeros.
fn region(heap: Global, blocks: usize) -> Result<Region, AllocError>
    ensures { IfOk result (λ v. v.items ≡ replicate blocks zero_block) }
{
    vec![in heap; [0u8; 512]; blocks]
}

impl Cards {
    pub(crate) fn blank(heap: Global, geometry: Geometry) -> Result<Cards, AllocError>
        ensures { IfOk result (λ c. AreBlank geometry.blocks c) }
    {
        let data = geometry.blocks;
        let tree = geometry.total();
        Ok(Cards {
            data_1: region(heap, data)?,
            data_2: region(heap, data)?,
            tree_1: region(heap, tree)?,
            tree_2: region(heap, tree)?,
        })
    }

    pub(crate) fn regions(&mut self) -> Regions<'_>
        ensures { AreLent self.old result }
    {
        Regions {
            data: (
                Memory::new(self.data_1.as_flattened_mut()),
                Memory::new(self.data_2.as_flattened_mut()),
            ),
            tree: (
                Memory::new(self.tree_1.as_flattened_mut()),
                Memory::new(self.tree_2.as_flattened_mut()),
            ),
        }
    }
}
