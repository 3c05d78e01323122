// What the calls look at first, in the order of their refusals.
ghost use Rattle.std.specs.Prelude.{◌≡◌, MatchResult, Ok, Err};
ghost use Rattle.volume.specs.Checks.{areas_check, counts_check, register_check};
ghost use Rattle.volume.specs.Refusals.{reason, told};

use crate::refusal::Refusal;
use crate::register::Register;
use crate::walk::RECORD;
use geometry::Geometry;

// Whether a register is for a volume under a hash of this kind, over devices of these counts.
pub(crate) fn fitting(
    register: &Register,
    kind: u8,
    store_blocks: usize,
    tree_blocks: usize,
) -> Result<Geometry, Refusal>
    ensures { let check = register_check register.now.blocks register.now.kind kind store_blocks tree_blocks in MatchResult result (λ g. (g.blocks ≡ register.now.blocks) × (check ≡ Ok tt)) (λ e. check ≡ Err (reason e)) }
{
    let geometry = Geometry::new(register.blocks).ok_or(Refusal::NeverFormatted)?;
    if register.kind != kind {
        return Err(Refusal::OtherKind);
    }
    if store_blocks != register.blocks {
        return Err(Refusal::OtherCount);
    }
    if tree_blocks < geometry.total() {
        return Err(Refusal::TreeCount);
    }
    Ok(geometry)
}

// The numbers of a tree over all blocks of a data device, where the devices may be formatted.
pub(crate) fn formattable(store_blocks: usize, tree_blocks: usize) -> Result<Geometry, Refusal>
    ensures { let check = counts_check store_blocks tree_blocks in MatchResult result (λ g. (g.blocks ≡ store_blocks) × (check ≡ Ok tt)) (λ e. check ≡ Err (reason e)) }
{
    let geometry = Geometry::new(store_blocks).ok_or(Refusal::DataCount)?;
    if tree_blocks < geometry.total() {
        return Err(Refusal::TreeCount);
    }
    Ok(geometry)
}

// Whether the areas of a call are of the right lengths, and its block one of so many.
pub(crate) fn check_areas(
    blocks: usize,
    number: usize,
    block_length: usize,
    log_length: usize,
) -> Result<(), Refusal>
    ensures { told result ≡ areas_check blocks number block_length log_length }
{
    if block_length != 512 {
        return Err(Refusal::BlockArea);
    }
    if log_length != RECORD {
        return Err(Refusal::RecordArea);
    }
    if number >= blocks {
        return Err(Refusal::PastLast);
    }
    Ok(())
}
