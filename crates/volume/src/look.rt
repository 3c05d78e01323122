// Looking into a volume without opening it.
ghost use Rattle.volume.specs.Calls.{LookStep};
ghost use Rattle.volume.specs.Promise.{LooksExactly};
ghost use Rattle.volume.specs.Refusals.{told};

use crate::checks::{check_areas, fitting};
use crate::refusal::Refusal;
use crate::register::Register;
use crate::walk::fetch_into;
use device::source::Source;
use digest::hash::Hash;

// Reads a block of a volume that lies on two sources, as the register has it. The area gets what the root vouches for, else zeros; the log
// gets what passed. Sound sources that are laid out for some contents, with a register that has their root, are read exactly.
pub fn look<S: Source, U: Source, H: Hash>(
    store: &mut S,
    tree: &mut U,
    hash: &H,
    register: &Register,
    number: usize,
    block: &mut [u8],
    log: &mut [u8],
) -> Result<(), Refusal>
    ensures step { LookStep S.Source.own U.Source.own (H.Hash.image hash.now) H.Hash.KIND store.old tree.old register.now number block.old log.old (told result) block.new log.new store.new tree.new }
    ensures exactly { LooksExactly S.Source.own U.Source.own (H.Hash.image hash.now) H.Hash.KIND }
{
    let geometry = fitting(register, H::KIND, store.blocks(), tree.blocks())?;
    check_areas(geometry.blocks, number, block.len(), log.len())?;
    fetch_into(
        store,
        tree,
        hash,
        geometry,
        number,
        &register.root,
        block,
        log,
    )
}
