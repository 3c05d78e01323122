// The sheet of a tray.
ghost use Rattle.std.specs.Prelude.{◌≤◌, vec_len};

use crate::block_count::BlockCount;
use crate::tray::{HashChoice, TrayNumber};
use sim::Sim;

// A tray's number, its hash, and a SIM for each of its first blocks: the SIM at index k belongs into block k.
#[derive(Drop)]
pub struct Sheet {
    pub tray: TrayNumber,
    pub hash: HashChoice,
    pub blocks: BlockCount,
    pub sims: Vec<Sim>,
    ghost few: { vec_len sims ≤ blocks.value },
}
