// The volume of a tray.
ghost use Rattle.std.specs.Prelude.{◌≡◌, map, IfOk};
ghost use Rattle.label.specs.Label.{volume_of};
ghost use Rattle.sim.specs.Block.{sim_block};

use sim::Sim;
use sim::block::encode;
use std::alloc::{AllocError, Global};
use subscriber::sheet::Sheet;
use tree::contents::Contents;

// The blocks of SIMs, in their order.
fn sim_blocks(heap: Global, sims: &[Sim]) -> Result<Vec<[u8; 512]>, AllocError>
    ensures { IfOk result (λ v. v.items ≡ map sim_block sims.now) }
{
    sims.iter().map(encode).collect(heap)
}

// SIM k stands in block k, and zeros in every block after the last SIM.
#[tactic(auto, unfolding(tree::specs::Layout::zero_block))]
pub fn load(heap: Global, sheet: &Sheet) -> Result<Contents, AllocError>
    ensures { IfOk result (λ c. c.blocks.items ≡ volume_of sheet.now.sims.items sheet.now.blocks.value) }
{
    let mut blocks = sim_blocks(heap, &sheet.sims)?;
    // Room for all blocks and no more, where `resize` would double what there is.
    blocks.reserve_exact(usize::from(sheet.blocks.value) - sheet.sims.len())?;
    blocks.resize(usize::from(sheet.blocks.value), [0; 512])?;
    Ok(Contents { blocks })
}
